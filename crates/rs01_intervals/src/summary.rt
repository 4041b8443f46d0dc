//! Parts of the flags, and what has to be known of each to find the longest run of them all.

ghost use Rattle.std.specs.Prelude.{◌≡◌, ◌^◌, ◌<◌, ℕ, List, [], ◌∷◌};
ghost use Rattle.rs01_intervals.specs.Runs.{better};
ghost use Rattle.rs01_intervals.specs.Summaries.{carried, joined, summary_of};

/// What is known of the runs in a part of the flags. Each place is a number of the whole list, so
/// that two parts are joined by comparing places, and no sum can be too large.
#[derive(Clone, Copy)]
pub struct Summary {
    /// Where the part begins.
    pub from: usize,
    /// Where the run ends that the part begins with: at `from` where its first flag isn't set.
    pub head_end: usize,
    /// Where the run begins that the part ends with: at its end where its last flag isn't set.
    pub tail_start: usize,
    /// Start and length of the longest run, the first one on a tie.
    pub best: (usize, usize),
}

// Of two runs, each told by start and length, the second only where it is longer: on a tie the
// lower start has to win, and the runs come in the order of their starts.
#[tactic(auto, unfolding(crate::specs::Runs::better))]
fn better(first: (usize, usize), second: (usize, usize)) -> (usize, usize)
    ensures { result ≡ better first second }
{
    if second.1 > first.1 { second } else { first }
}

// A place, or, where it is the seam of two parts, how far the run there goes beyond.
fn carried(place: usize, seam: usize, beyond: usize) -> usize
    ensures { result ≡ carried place seam beyond }
{
    if place == seam { beyond } else { place }
}

impl Summary {
    /// What is known of no flags at all.
    #[tactic(auto, using(crate::proofs::Joining::short))]
    pub fn of_nothing(from: usize) -> Summary
        ensures { result ≡ summary_of from [] }
    {
        Summary {
            from,
            head_end: from,
            tail_start: from,
            best: (from, 0),
        }
    }

    /// What is known of the flag with the number `from` alone. The number must be below 2^40.
    #[tactic(auto, using(crate::proofs::Joining::short))]
    pub fn of_flag(from: usize, flag: bool) -> Summary
        requires { from < 2 ^ 40 }
        ensures { result ≡ summary_of from (flag ∷ []) }
    {
        if flag {
            Summary {
                from,
                head_end: from + 1,
                tail_start: from,
                best: (from, 1),
            }
        } else {
            Summary {
                from,
                head_end: from,
                tail_start: from + 1,
                best: (from, 0),
            }
        }
    }

    /// What is known of two parts together, the second of which begins where the first ends.
    #[tactic(auto, unfolding(crate::specs::Summaries::joined))]
    pub fn joined(left: Summary, right: Summary) -> Summary
        ensures { result ≡ joined left right }
    {
        // The one run that lies in neither part alone. It saturates, so that no condition on the
        // parts is needed: of neighbours the tail never starts past the head's end.
        let over_seam = (
            left.tail_start,
            right.head_end.saturating_sub(left.tail_start),
        );
        Summary {
            from: left.from,
            head_end: carried(left.head_end, right.from, right.head_end),
            tail_start: carried(right.tail_start, right.from, left.tail_start),
            best: better(better(left.best, over_seam), right.best),
        }
    }
}
