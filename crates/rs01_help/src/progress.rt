//! How far a work has come.
ghost use Rattle.std.specs.Prelude.{◌≡◌, ◌+◌, IfOk, string_bytes};
ghost use Rattle.rs01_report.specs.Lines.{Adds};
ghost use Rattle.rs01_help.specs.Progress.{again, asks_part, bytes_done, bytes_line, left_part, sectors_done, sectors_line, settled_part, share, size_part, speed_part};

use std::alloc::{AllocError, Global};
use std::fmt::Write;

/// What drives were asked for.
#[derive(Clone, Copy, Debug)]
pub struct Asks {
    /// How often one gave a block.
    pub given: u32,
    /// How often one didn't.
    pub failed: u32,
    /// How many layers have as few sectors left as correction restores, so that none of these is
    /// asked for any more.
    pub settled: u64,
}

impl Asks {
    fn asked(self) -> u64
        ensures { result ≡ self.given + self.failed }
    {
        self.given as u64 + self.failed as u64
    }
}

// A product by a quotient, and 0 where that has none.
#[tactic(auto, unfolding(crate::specs::Progress::share))]
fn share(of: u64, times: u64, by: u64) -> u128
    ensures { result ≡ share of times by }
{
    if by == 0 {
        return 0;
    }
    of as u128 * times as u128 / by as u128
}

// Takes away the line before.
#[tactic(auto, unfolding(crate::specs::Progress::again))]
fn push_again(text: &mut String) -> Result<(), AllocError>
    ensures { Adds text.old text.new again result }
{
    text.push_str("\r\x1b[K")?;
    Ok(())
}

#[tactic(auto, unfolding(crate::specs::Progress::left_part))]
fn push_left(text: &mut String, done: u64, total: u64, millis: u64) -> Result<(), AllocError>
    ensures { Adds text.old text.new (left_part done total millis) result }
{
    let seconds = share(total.saturating_sub(done), millis, done) / 1000;
    write!(text, ", {seconds} s left")?;
    Ok(())
}

#[tactic(auto, unfolding(crate::specs::Progress::size_part))]
fn push_size(text: &mut String, done: u64, total: u64) -> Result<(), AllocError>
    ensures { Adds text.old text.new (size_part done total) result }
{
    let percent = share(done, 100, total);
    let size = total / 1_000_000;
    write!(text, "{percent} % of {size} MB")?;
    Ok(())
}

#[tactic(auto, unfolding(crate::specs::Progress::speed_part))]
fn push_speed(text: &mut String, done: u64, millis: u64) -> Result<(), AllocError>
    ensures { Adds text.old text.new (speed_part done millis) result }
{
    let speed = share(done, 1, millis) / 1000;
    write!(text, ", {speed} MB a second")?;
    Ok(())
}

#[tactic(auto, unfolding(crate::specs::Progress::bytes_done))]
fn push_bytes(text: &mut String, done: u64, total: u64, millis: u64) -> Result<(), AllocError>
    ensures { Adds text.old text.new (bytes_done done total millis) result }
{
    push_again(text)?;
    push_size(text, done, total)?;
    push_speed(text, done, millis)?;
    push_left(text, done, total, millis)?;
    Ok(())
}

/// A line on files of which `total` bytes are read in all, so many of them by now, after so many milliseconds. It stands in
/// place of the line before it, and never tells of more than all.
pub fn bytes_line(alloc: Global, done: u64, total: u64, millis: u64) -> Result<String, AllocError>
    ensures { IfOk result (λ text. string_bytes text ≡ bytes_line done total millis) }
{
    let mut text = String::new(alloc);
    push_bytes(&mut text, done.min(total), total, millis)?;
    Ok(text)
}

#[tactic(auto, unfolding(crate::specs::Progress::asks_part))]
fn push_asks(text: &mut String, asks: Asks) -> Result<(), AllocError>
    ensures { Adds text.old text.new (asks_part asks.given asks.failed) result }
{
    let (given, failed, asked) = (asks.given, asks.failed, asks.asked());
    write!(text, ", asked {asked}, good {given}, failed {failed}")?;
    Ok(())
}

#[tactic(auto, unfolding(crate::specs::Progress::settled_part))]
fn push_settled(text: &mut String, settled: u64) -> Result<(), AllocError>
    ensures { Adds text.old text.new (settled_part settled) result }
{
    if settled == 0 {
        return Ok(());
    }
    write!(text, ", layers settled {settled}")?;
    Ok(())
}

#[tactic(auto, unfolding(crate::specs::Progress::sectors_done))]
fn push_sectors(
    text: &mut String,
    done: u64,
    total: u64,
    asks: Asks,
    millis: u64,
) -> Result<(), AllocError>
    ensures { let told = sectors_done done total asks.given asks.failed asks.settled millis in
        Adds text.old text.new told result }
{
    let rate = share(asks.asked(), 1000, millis);
    push_again(text)?;
    write!(text, "sector {done} of {total}")?;
    push_asks(text, asks)?;
    push_settled(text, asks.settled)?;
    write!(text, ", {rate} a second")?;
    push_left(text, done, total, millis)?;
    Ok(())
}

/// The same on drives, which have `total` sectors: those up to `done` were asked for, or need not be.
pub fn sectors_line(
    alloc: Global,
    done: u64,
    total: u64,
    asks: Asks,
    millis: u64,
) -> Result<String, AllocError>
    ensures { IfOk result (λ text.
        string_bytes text
        ≡ sectors_line done total asks.given asks.failed asks.settled millis) }
{
    let mut text = String::new(alloc);
    push_sectors(&mut text, done.min(total), total, asks, millis)?;
    Ok(text)
}
