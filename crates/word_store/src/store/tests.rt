use super::*;
use heap_store::{NamesFull, Rows};
use std::test::Fail;
use std::thread;

/// How many names four passes draw.
const ROWS: u32 = 400;

/// A pass and the names that it drew.
#[derive(Drop)]
struct Drawer {
    pass: Pass,
    names: Vec<u32>,
}

/// Draws names until none is left.
fn draw_all(drawer: &mut Drawer) {
    for _ in 0..ROWS {
        let Ok(name) = drawer.pass.draw_name() else {
            return;
        };
        let Ok(()) = drawer.names.push(name) else {
            return;
        };
    }
}

/// Four threads draw all names, each once.
#[test]
fn names_are_drawn_once(rt: HostRuntime) -> Result<(), Fail> {
    let mut store = Store::open(rt.alloc(), 0, ROWS, 4)?;
    let mut drawers = Vec::new(rt.alloc());
    drawers.push(Drawer {
        pass: store.pass()?,
        names: Vec::new(rt.alloc()),
    })?;
    drawers.push(Drawer {
        pass: store.pass()?,
        names: Vec::new(rt.alloc()),
    })?;
    drawers.push(Drawer {
        pass: store.pass()?,
        names: Vec::new(rt.alloc()),
    })?;
    drawers.push(Drawer {
        pass: store.pass()?,
        names: Vec::new(rt.alloc()),
    })?;
    thread::for_each_mut(
        &rt,
        drawers.as_mut_slice(),
        4,
        &|_, drawer| draw_all(drawer),
    );
    let mut all = Vec::new(rt.alloc());
    for drawer in drawers.as_slice() {
        for name in drawer.names.as_slice() {
            all.push(*name)?;
        }
    }
    all.sort()?;
    assert_eq!(rt; all.len(), ROWS as usize);
    for i in 0..all.len() {
        assert_eq!(rt; all[i] as usize, i + 1);
    }
    Ok(())
}

/// A store of one caller: its number, its counts, and its only name.
#[test]
fn one_caller(rt: HostRuntime) -> Result<(), Fail> {
    let mut store = Store::open(rt.alloc(), 10, 1, 1)?;
    let mut pass = store.pass()?;
    assert_eq!(rt; pass.caller(), 0);
    assert_eq!(rt; pass.load_counts(), (0, 0));
    assert_eq!(rt; pass.draw_name(), Ok(1));
    assert_eq!(rt; pass.draw_name(), Err(NamesFull { drawn: 1 }));
    assert_eq!(rt; pass.load_counts(), (1, 0));
    Ok(())
}
