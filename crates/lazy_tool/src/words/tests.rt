use super::{Command, read_words};
use std::alloc::{AllocError, Global};
use std::test::Fail;

const READ: [(&[&str], Command); 9] = [
    (&["plain"], Command::Plain { nodes: None }),
    (
        &["plain", "--nodes", "30"],
        Command::Plain { nodes: Some(30) },
    ),
    (&["plain", "--nodes=30"], Command::Plain { nodes: Some(30) }),
    (&["plain", "--nodes=0"], Command::Plain { nodes: Some(0) }),
    (
        &["plain", "--nodes", "0004000000"],
        Command::Plain {
            nodes: Some(4_000_000),
        },
    ),
    (
        &["gen", "1", "20000"],
        Command::Gen {
            seed: 1,
            events: 20_000,
        },
    ),
    (&["gen", "0", "0"], Command::Gen { seed: 0, events: 0 }),
    (
        &["gen", "18446744073709551615", "200000"],
        Command::Gen {
            seed: 18_446_744_073_709_551_615,
            events: 200_000,
        },
    ),
    (
        &["gen", "00000000000000000007", "0000000007"],
        Command::Gen { seed: 7, events: 7 },
    ),
];

const UNREAD: [&[&str]; 24] = [
    &[],
    &[""],
    &["Plain"],
    &["plain "],
    &["--help"],
    &["--", "plain"],
    &["plain", "--"],
    &["plain", "plain"],
    &["plain", "--nodes"],
    &["plain", "--nodes="],
    &["plain", "--nodes", ""],
    &["plain", "--node", "30"],
    &["plain", "--node=30"],
    &["plain", "--nodes=+30"],
    &["plain", "--nodes=-1"],
    &["plain", "--nodes= 30"],
    &["plain", "--nodes=4000001"],
    &["plain", "--nodes", "00000000030"],
    &["plain", "--nodes", "30", "--nodes=30"],
    &["gen", "1"],
    &["gen", "1", "200001"],
    &["gen", "18446744073709551616", "1"],
    &["gen", "000000000000000000007", "1"],
    &["gen", "1", "1", "1"],
];

fn words_of(alloc: Global, texts: &[&str]) -> Result<Vec<String>, AllocError> {
    let mut words = Vec::new(alloc);
    for text in texts {
        words.push(String::from_str(alloc, text)?)?;
    }
    Ok(words)
}

#[test]
fn words_read_as_commands(rt: HostRuntime) -> Result<(), Fail> {
    for (texts, command) in &READ {
        let words = words_of(rt.alloc(), texts)?;
        assert_eq!(rt; read_words(words.as_slice()), Some(*command), "{texts:?}");
    }
    for texts in &UNREAD {
        let words = words_of(rt.alloc(), texts)?;
        assert_eq!(rt; read_words(words.as_slice()), None, "{texts:?}");
    }
    Ok(())
}
