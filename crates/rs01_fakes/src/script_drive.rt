//! A drive in memory.
ghost use Rattle.std.specs.Prelude.{◌≡◌, ◌+◌, ◌*◌, ◌<◌, ◌≤◌, IfOk, IsNone, IsTrue, is_err, not, slice_get};
ghost use Rattle.rs01_outside.specs.DriveView.{Counts, answer_at, ask};

use crate::marks;
use crate::scripts::{self, Answer, Pending, Script};
use rs01_outside::{Drive, Failed};
use std::alloc::{AllocError, Global};

/// A drive in memory, which tells what it means and answers by script.
///
/// Each sector has answers that come once each, in order, and a steady answer that stays once none
/// is coming. Sectors at or past the number are faults, and use nothing up. A read whose ask can't
/// be recorded for want of memory fails, and the drive tells no more from then on. `new` reserves
/// room for asks, and within it a read takes no memory.
#[derive(Drop)]
pub struct ScriptDrive {
    number: u32,
    sectors_fail: bool,
    pending: Vec<Pending>,
    // Steady answers of the first sectors. The others answer with zeros.
    kept: Vec<Answer>,
    asked: Vec<u32>,
    telling: bool,
    faults: u64,
}

impl ScriptDrive {
    ghost use Rattle.rs01_fakes.specs.ScriptDrive.{SameButView, Sets, ask_room_of, blank, drive_state, tells_of, view_of, with_coming, with_image, with_steady, without_number};

    /// A drive of so many sectors, whose steady answers are blocks of zeros. It has room for the
    /// asks of two reads of each sector, and 16 more.
    pub fn new(alloc: Global, sectors: u32) -> Result<ScriptDrive, AllocError>
        ensures view { IfOk result (λ drive. view_of drive ≡ blank sectors) }
        ensures tells { IfOk result (λ drive. IsTrue (tells_of drive)) }
        ensures faults { IfOk result (λ drive. (drive_state drive).faults ≡ 0) }
        ensures room { IfOk result (λ drive. 2 * sectors + 16 ≤ ask_room_of drive) }
    {
        let asked = Vec::with_capacity(alloc, 2 * sectors as usize + 16)?;
        Ok(ScriptDrive {
            number: sectors,
            sectors_fail: false,
            pending: Vec::new(alloc),
            kept: Vec::new(alloc),
            asked,
            telling: true,
            faults: 0,
        })
    }

    /// Makes the blocks of an image the steady answers of the first sectors. Zeros fill up the last
    /// block. Sectors past the image's end keep their steady answers, blocks past the drive's
    /// number are left out, and coming answers stay. Without memory nothing changes.
    pub fn load(&mut self, alloc: Global, image: &[u8]) -> Result<(), AllocError>
        ensures { Sets (with_image (view_of self.old) image.now) self.old self.new result }
    {
        let blocks = image.len().div_ceil(2048);
        let count = blocks.min(self.number as usize) as u32;
        scripts::lay_image(&mut self.kept, image, count)?;
        Ok(())
    }

    /// Adds answers behind those that come for a sector. Without memory nothing changes.
    pub fn coming(
        &mut self,
        alloc: Global,
        sector: u32,
        answers: &[Script],
    ) -> Result<(), AllocError>
        requires { sector < (view_of self.old).number }
        ensures { let view = with_coming (view_of self.old) sector answers.now in
            Sets view self.old self.new result }
    {
        scripts::add_coming(alloc, &mut self.pending, sector, answers)?;
        Ok(())
    }

    /// Sets the steady answer of a sector. Without memory nothing changes.
    pub fn steady(&mut self, alloc: Global, sector: u32, answer: Script) -> Result<(), AllocError>
        requires { sector < (view_of self.old).number }
        ensures { Sets (with_steady (view_of self.old) sector answer) self.old self.new result }
    {
        let answer = scripts::answer_of(&answer);
        scripts::set_steady(&mut self.kept, sector, answer)?;
        Ok(())
    }

    /// Makes each later `sectors` fail.
    pub fn fail_sectors(&mut self)
        ensures view { view_of self.new ≡ without_number (view_of self.old) }
        ensures rest { SameButView self.old self.new }
    {
        self.sectors_fail = true;
    }

    // What a read of a sector answers. It uses up a coming answer, and changes nothing else.
    fn answer(&mut self, sector: u32) -> Answer
        ensures answer { result ≡ answer_at (view_of self.old) sector }
        ensures view { view_of self.new ≡ record (view_of self.old) {
          coming = (ask (view_of self.old) sector).coming;
        } }
        ensures rest { SameButView self.old self.new }
    {
        if sector >= self.number {
            return None;
        }
        match scripts::take_next(&mut self.pending, sector) {
            Some(answer) => answer,
            None => scripts::steady_of(&self.kept, sector),
        }
    }
}

impl Drive for ScriptDrive {
    ghost use Rattle.rs01_fakes.specs.ScriptDrive.{Answered, Records, TellsGiven, drive_state, tells_of, view_of};

    ghost state = { drive_state };

    fn sectors(&mut self) -> Result<u32, Failed>
        ensures answers { Answered (view_of self.old) self.old self.new (is_err result) }
        ensures number { Counts (view_of self.old) result }
        ensures tells { tells_of self.new ≡ tells_of self.old }
        ensures view { view_of self.new ≡ view_of self.old }
    {
        if self.sectors_fail {
            return Err(marks::fail(&mut self.faults));
        }
        Ok(self.number)
    }

    fn read(&mut self, sector: u32, into: &mut [u8; 2048]) -> Result<(), Failed>
        ensures answers { let view = ask (view_of self.old) sector in
            Answered view self.old self.new (is_err result) }
        ensures gives { TellsGiven self.old self.new sector into.new result }
        ensures records { Records self.old self.new (is_err result) }
    {
        match self.asked.push(sector) {
            Ok(()) => {}
            Err(_) => {
                self.telling = false;
                return Err(marks::fail(&mut self.faults));
            }
        }
        match self.answer(sector) {
            Some(block) => {
                *into = block;
                Ok(())
            }
            None => Err(marks::fail(&mut self.faults)),
        }
    }

    fn asked_at(&self, i: u64) -> Option<u32>
        ensures told { IsTrue (tells_of self.now) → result ≡ slice_get (view_of self.now).asked i }
        ensures untold { IsTrue (not (tells_of self.now)) → IsNone result }
    {
        if !self.telling || i >= self.asked.len() as u64 {
            return None;
        }
        Some(self.asked[i as usize])
    }

    fn faults(&self) -> u64 {
        self.faults
    }
}
