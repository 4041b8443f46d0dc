//! What holds of a window after any list of events.

ghost use Rattle.rs01_window.specs.WindowLaws.{TicketsAreDrawnOnce, RunsKeepOrder};

use rs01_layers::LayerTask;

/// After every list of events on a new window, the tickets that were drawn are 0, 1, 2 and so on.
pub fn tickets_are_drawn_once()
    ensures { TicketsAreDrawnOnce }
{}

/// After every list of events on a new window with a worker, where each value that is given is the
/// task's: no ticket is had twice, nor had once something was given for it; a worker has the input
/// posted at its ticket; each value that was given is the task's value of the input in its slot; and
/// once the window is closed and each worker saw its end, something was given for each input.
pub fn runs_keep_order<T: LayerTask>()
    ensures { RunsKeepOrder T.value }
{}
