//! The calls on a pass: one call begins and ends one event.
ghost use Rattle.std.specs.Prelude.{◌≡◌, ◌<◌, ◌≤◌, true, false, IfOk, IfErr, OnOk, OnErr};
ghost use Rattle.lazy_rec.specs.declared.events.Op.TheVariants.{New};
ghost use Rattle.lazy_rec.specs.Due.{may_force};
ghost use Rattle.lazy_rec.specs.History.{event_name};
ghost use Rattle.heap_store.specs.declared.jobs.Stage.TheVariants.{Start};
ghost use Rattle.heap_store.specs.View.{IsLawfulView, Quiet};
ghost use Rattle.heap_store.specs.RowCalls.{NameDrawn};
ghost use Rattle.kind_table.specs.Kinds.{is_built};
ghost use Rattle.version_book.specs.RowSteps.{IsPlanned, IsNextEvent, HasLostBase, skipped_row};
ghost use Rattle.version_book.specs.Calls.{HasDrawn, MayExtend, Called, Ended, IsKnown, IsOutcome, IsNew, IsOutOfNames, Shown, event_of_call, new_event};

use crate::answers::{Entry, Look, Refuse, Tally, Ticket};
use crate::lookups::look;
use crate::one_event::{event_of_call, run, start_new};
use crate::pass::BookPass;
use crate::row_steps;
use heap_store::{EventJob, Heap, Rows, Stage, Version};
use lazy_rec::{Event, Kind, Op};

/// The job of an event, at its first stage.
fn first_stage(op: Op, base: Version, other: Version, arg: u64) -> EventJob
    ensures { result ≡ record { op = op; base = base; other = other; arg = arg; stage = Start } }
{
    EventJob {
        op,
        base,
        other,
        arg,
        stage: Stage::Start,
    }
}

impl<R: Rows> BookPass<R> {
    /// Draws the next name, greater than every name that the pass has seen a word of. The ticket must be spent.
    pub fn draw(&mut self) -> Result<Ticket, Refuse>
        ensures ok { IfOk result (λ ticket. NameDrawn self.old.view self.new.view ticket.name) }
        ensures caller { IfOk result (λ ticket. ticket.caller ≡ self.old.caller) }
        ensures err { IfErr result (λ refuse. IsOutOfNames self.old.view self.new.view refuse) }
        ensures same { self.new.caller ≡ self.old.caller }
        ensures lawful { IsLawfulView self.new.view }
    {
        match self.heap.draw_name() {
            Ok(name) => Ok(Ticket {
                name,
                caller: self.caller,
            }),
            Err(none) => Err(Refuse::NamesFull(none)),
        }
    }

    /// Begins and ends `new`, which makes an empty structure of a kind. It takes no memory and waits for nothing.
    pub fn begin_new(&mut self, ticket: Ticket, kind: Kind) -> Result<Entry, Refuse>
        requires drawn { HasDrawn self.old ticket.name }
        requires built { is_built kind (New kind) ≡ true }
        requires planned { IsPlanned self.old.view.about.plan ticket.name (new_event kind) }
        ensures ended { Ended self.old self.new ticket.name (new_event kind) result }
        ensures known { IfOk result (λ entry. IsKnown self.new entry) }
        ensures empty { IfOk result (λ entry. IsNew self.new kind entry) }
        ensures memory { IfErr result (λ refuse. refuse ≡ Refuse.NoMemory → ⊥) }
        ensures lawful { IsLawfulView self.new.view }
    {
        let Ticket { name, caller: _ } = ticket;
        start_new(&mut self.heap, self.caller, name, kind)
    }

    /// Begins and ends an event whose operation never forces (`dues::never_forces`). It takes no memory and waits for nothing.
    pub fn extend(
        &mut self,
        ticket: Ticket,
        op: Op,
        base: Version,
        other: Version,
        arg: u64,
    ) -> Result<Entry, Refuse>
        requires may { MayExtend self.old ticket.name op base other arg }
        requires never_forces { may_force base.kind op ≡ false }
        ensures ended { Ended self.old self.new ticket.name (event_of_call op base other arg) result }
        ensures known { IfOk result (λ entry. IsKnown self.new entry) }
        ensures outcome { IfOk result (λ entry. IsOutcome self.old self.new op base other arg entry) }
        ensures memory { IfErr result (λ refuse. refuse ≡ Refuse.NoMemory → ⊥) }
        ensures lawful { IsLawfulView self.new.view }
    {
        let Ticket { name, caller: _ } = ticket;
        let job = first_stage(op, base, other, arg);
        let event = event_of_call(&job);
        let unused = &mut self.stack;
        run(
            &mut self.heap,
            unused,
            base.kind,
            self.caller,
            name,
            &event,
            &job,
        )
    }

    /// Begins and ends an event, and forces what it needs, on a heap that no other thread works on. It always returns.
    pub fn call(
        &mut self,
        ticket: Ticket,
        op: Op,
        base: Version,
        other: Version,
        arg: u64,
    ) -> Result<Entry, Refuse>
        requires may { MayExtend self.old ticket.name op base other arg }
        requires alone { self.old.view.about.alone ≡ true }
        ensures ended { Ended self.old self.new ticket.name (event_of_call op base other arg) result }
        ensures known { IfOk result (λ entry. IsKnown self.new entry) }
        ensures outcome { IfOk result (λ entry. IsOutcome self.old self.new op base other arg entry) }
        ensures memory { IfErr result (λ refuse. refuse ≡ Refuse.NoMemory → may_force base.kind op ≡ true) }
        ensures lawful { IsLawfulView self.new.view }
    {
        let Ticket { name, caller: _ } = ticket;
        let job = first_stage(op, base, other, arg);
        let event = event_of_call(&job);
        run(
            &mut self.heap,
            &mut self.stack,
            base.kind,
            self.caller,
            name,
            &event,
            &job,
        )
    }

    /// The same for an event that is at hand, on the versions that it names, of which the base's kind is known. Inlined, so that the
    /// work of one kind is compiled by itself.
    #[inline(always)]
    pub(crate) fn call_as(
        &mut self,
        kind: Kind,
        ticket: Ticket,
        event: Event,
        base: Version,
        other: Version,
    ) -> Result<Entry, Refuse>
        requires event { event ≡ event_of_call event.op base other event.arg }
        requires may { MayExtend self.old ticket.name event.op base other event.arg }
        requires kind { base.kind ≡ kind }
        requires alone { self.old.view.about.alone ≡ true }
        ensures ended { Ended self.old self.new ticket.name event result }
        ensures lawful { IsLawfulView self.new.view }
    {
        let Ticket { name, caller: _ } = ticket;
        let job = first_stage(event.op, base, other, event.arg);
        run(
            &mut self.heap,
            &mut self.stack,
            kind,
            self.caller,
            name,
            &event,
            &job,
        )
    }

    /// Ends the row of an event that is never begun, since one of its bases is given up.
    pub fn skip(&mut self, ticket: Ticket, event: &Event)
        requires drawn { HasDrawn self.old ticket.name }
        requires event { IsNextEvent self.old.view ticket.name event.now }
        requires lost { HasLostBase self.old.view event.now }
        ensures skipped { Called self.old self.new ticket.name (skipped_row self.old.caller event.now) }
        ensures lawful { IsLawfulView self.new.view }
    {
        let Ticket { name, caller: _ } = ticket;
        row_steps::skip(&mut self.heap, self.caller, name, event);
    }

    /// The version with a number, as the row of its event shows it now. It takes no memory and waits for nothing.
    pub fn lookup(&mut self, version: u32) -> Look
        requires low { 1 ≤ event_name version }
        requires high { event_name version ≤ self.old.view.about.rows }
        ensures quiet { Quiet self.old.view self.new.view }
        ensures look { Shown self.new.view.seen version result }
        ensures same { self.new.caller ≡ self.old.caller }
        ensures lawful { IsLawfulView self.new.view }
    {
        look(&mut self.heap, version)
    }

    /// How many names and how many places are drawn.
    pub fn tally(&mut self) -> Tally
        ensures quiet { Quiet self.old.view self.new.view }
        ensures names { result.names ≡ self.new.view.named }
        ensures nodes { result.nodes ≡ self.new.view.drawn }
        ensures same { self.new.caller ≡ self.old.caller }
        ensures lawful { IsLawfulView self.new.view }
    {
        let (names, nodes) = self.heap.load_counts();
        Tally { names, nodes }
    }
}
