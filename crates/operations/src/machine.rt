// The machine that works an operation off by recursion over the levels. Each call inside it stands on a stack of frames
// while it is open, so that deep diagrams take no more of the processor's stack than flat ones.
ghost use Rattle.std.specs.Prelude.{◌≡◌};
ghost use Rattle.node_table.specs.Diagram.{levels};
ghost use Rattle.node_table.specs.Table.{TableState};
ghost use Rattle.operations.specs.Machine.{Calls, IsAnswer};

use crate::frames::{Frame, Reply, Turn, answer_high, drop_top, push, top};
use host_io::Sink;
use node_table::{Table, TableError};
use std::alloc::Global;

/// An operation on diagrams by recursion over the levels: a call is answered at once, or it is split into one for the
/// high side and one for the low side, from whose answers it is closed.
pub trait Operation<S: Sink + Drop> {
    /// What was found before.
    type Cache;
    /// What a call asks.
    type Question: Copy;
    /// What a call was split into.
    type Parts: Copy;

    type Answer: Copy;

    ghost calls: { Calls S Self.Cache Self.Question Self.Parts Self.Answer };

    /// The allocator of the cache.
    fn alloc(cache: &Self::Cache) -> Global;

    /// Begins a call: it fails, is answered, or is split.
    fn ask(
        table: &mut Table<S>,
        cache: &mut Self::Cache,
        question: Self::Question,
    ) -> Result<Reply<Self::Parts, Self::Answer>, TableError>
        requires { calls.can table.old cache.old question }
        ensures answer { IsAnswer calls table.old cache.old question table.new cache.new result }
        ensures levels { levels table.new.graph ≡ levels table.old.graph };

    /// The call of the high side.
    fn high(parts: &Self::Parts) -> Self::Question
        ensures { result ≡ calls.high parts.now };

    /// The call of the low side; none where the answer of the high side is that of the whole call.
    fn low(parts: &Self::Parts, high: &Self::Answer) -> Option<Self::Question>
        ensures { result ≡ calls.low parts.now high.now };

    /// Closes a call that was split, from the answers of both sides.
    fn close(
        table: &mut Table<S>,
        cache: &mut Self::Cache,
        parts: &Self::Parts,
        high: &Self::Answer,
        low: &Self::Answer,
    ) -> Result<Self::Answer, TableError>
        requires { calls.can_close table.old cache.old parts.now high.now low.now }
        ensures closes { calls.closes table.old cache.old parts.now high.now low.now table.new cache.new result }
        ensures levels { levels table.new.graph ≡ levels table.old.graph };
}

/// Works a call off, with all calls inside it.
pub fn work_off<S: Sink + Drop, O: Operation<S>>(
    table: &mut Table<S>,
    cache: &mut O::Cache,
    question: O::Question,
) -> Result<O::Answer, TableError>
    requires { O.calls.can table.old cache.old question }
    ensures { O.calls.ends table.old cache.old question table.new cache.new result }
{
    let mut frames: Vec<Frame<O::Parts, O::Answer>> = Vec::new(O::alloc(cache));
    let mut turn = Turn::Ask(question);
    'calls: loop {
        match turn {
            Turn::Ask(question) => match O::ask(table, cache, question)? {
                Reply::Open(parts) => {
                    push(&mut frames, parts)?;
                    turn = Turn::Ask(O::high(&parts));
                }
                Reply::Give(found) => turn = Turn::Answer(found),
            },
            Turn::Answer(found) => {
                let Some(frame) = top(&frames) else {
                    return Ok(found);
                };
                match &frame.high {
                    None => match O::low(&frame.parts, &found) {
                        None => {
                            drop_top(&mut frames);
                            turn = Turn::Answer(found);
                        }
                        Some(question) => {
                            answer_high(&mut frames, found);
                            turn = Turn::Ask(question);
                        }
                    },
                    Some(high) => {
                        let closed = O::close(table, cache, &frame.parts, high, &found)?;
                        drop_top(&mut frames);
                        turn = Turn::Answer(closed);
                    }
                }
            }
        }
    }
}
