// The calls of an operation that are still open, on a stack of their own in place of the processor's.
ghost use Rattle.std.specs.Prelude.{◌≡◌, ◌∷◌, [], List, None, Some, OnOk, MatchOption, reverse};
ghost use Rattle.operations.specs.declared.frames.Frame.{Frame as FrameValue};

use cnf_base::OutOfMemory;

/// What is said to a call: it was split, or its answer.
#[derive(Clone, Copy, Drop)]
pub enum Reply<P, A> {
    Open(P),
    Give(A),
}

/// What is next: a call is asked, or an answer is given to the frame on top.
#[derive(Clone, Copy, Drop)]
pub(crate) enum Turn<Q, A> {
    Ask(Q),
    Answer(A),
}

/// A call that is still open: what it was split into, and the answer of its high side once that is there.
#[derive(Clone, Copy)]
pub(crate) struct Frame<P, A> {
    pub parts: P,
    pub high: Option<A>,
}

/// One frame more, on top, without an answer yet.
pub(crate) fn push<P: Copy, A: Copy>(
    frames: &mut Vec<Frame<P, A>>,
    parts: P,
) -> Result<(), OutOfMemory>
    ensures { OnOk result (reverse frames.new.items ≡ record { parts = parts; high = None } ∷ reverse frames.old.items) }
{
    frames.push(Frame { parts, high: None })?;
    Ok(())
}

/// The frame on top, if there is one.
#[inline(always)]
pub(crate) fn top<P: Copy, A: Copy>(frames: &Vec<Frame<P, A>>) -> Option<&Frame<P, A>>
    ensures { MatchOption result (reverse frames.now.items ≡ [])
        (λ frame. (below : List (FrameValue P A)) × (reverse frames.now.items ≡ frame.now ∷ below)) }
{
    frames.as_slice().last()
}

/// The frame on top gets the answer of its high side.
#[inline(always)]
pub(crate) fn answer_high<P: Copy, A: Copy>(frames: &mut Vec<Frame<P, A>>, high: A)
    ensures { (frame : FrameValue P A) (below : List (FrameValue P A)) → reverse frames.old.items ≡ frame ∷ below
        → reverse frames.new.items ≡ record { parts = frame.parts; high = Some high } ∷ below }
{
    let count = frames.len();
    if count > 0 {
        frames[count - 1].high = Some(high);
    }
}

/// The frame on top leaves.
#[inline(always)]
pub(crate) fn drop_top<P: Copy, A: Copy>(frames: &mut Vec<Frame<P, A>>)
    ensures { (frame : FrameValue P A) (below : List (FrameValue P A)) → reverse frames.old.items ≡ frame ∷ below
        → reverse frames.new.items ≡ below }
{
    let _ = frames.pop();
}
