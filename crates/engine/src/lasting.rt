//! For how long readings last: `None` is for ever.
ghost use Rattle.std.specs.Prelude.{◌≡◌, not};
ghost use Rattle.engine.specs.Steps.{shorter, capped};

// The shorter of two lengths.
pub(crate) fn shorter_of(x: Option<u32>, y: Option<u32>) -> Option<u32>
    ensures { result ≡ shorter x y }
{
    match (x, y) {
        (None, y) => y,
        (x, None) => x,
        (Some(x), Some(y)) => Some(x.min(y)),
    }
}

// A length, and at most what is left.
pub(crate) fn capped_at(lasts: Option<u32>, left: u32) -> u32
    ensures { result ≡ capped lasts left }
{
    lasts.map_or(left, |n| n.min(left))
}

// A verdict turned round lasts as long. The pair is the one that a memory's `run` answers.
pub(crate) fn turned(run: (bool, Option<u32>)) -> (bool, Option<u32>)
    ensures { (result.0 ≡ not run.0) × (result.1 ≡ run.1) }
{
    let (verdict, lasts) = run;
    (!verdict, lasts)
}
