//! The steps of a demonstration, one after the other, on one thread and by two.
ghost use Rattle.std.specs.Prelude.{◌≤◌, ◌≢◌, List, ℕ};
ghost use Rattle.rs01_outside.specs.DeskState.{DeskState};
ghost use Rattle.rs01_demo.specs.Plan.{IsInRange, ecc_name, image_name, plan_of};
ghost use Rattle.rs01_demo.specs.Showing.{IsDemo, IsProtected, IsReadied, IsRepaired};

use crate::demonstration::Demonstration;
use crate::making::make_image;
use crate::marking::mark_sectors;
use crate::plan::Plan;
use crate::refusal::DemoRefusal;
use crate::telling::tell;
use rs01_create::{CreateRefusal, create, create_one};
use rs01_fix::{FixRefusal, fix, fix_one};
use rs01_outside::{Desk, Failed, Gate};
use rs01_report::{CreateReport, FixReport};
use std::alloc::Global;
use std::sync::Wait;
use std::thread::Threads;

// Marks the first sectors of the image as missing, once its error correction file was made. Gives the image's digest.
fn mark<D: Desk>(
    desk: &mut D,
    image: &str,
    plan: Plan,
    made: Result<CreateReport, CreateRefusal>,
) -> Result<[u8; 16], DemoRefusal>
    ensures { (ecc : List ℕ) (old : DeskState)
        → IsProtected plan image.now ecc old (D.state desk.old) made
        → IsReadied plan image.now ecc old (D.state desk.new) result }
{
    match made {
        Ok(made) => match mark_sectors(desk, image, plan.lost) {
            Ok(()) => Ok(made.image_sum),
            Err(Failed) => Err(DemoRefusal::WriteFault),
        },
        Err(why) => Err(DemoRefusal::Create(why)),
    }
}

// Tells of the image, once it was repaired.
fn finish<D: Desk>(
    alloc: Global,
    desk: &mut D,
    image: &str,
    ecc: &str,
    plan: Plan,
    image_sum: [u8; 16],
    fixed: Result<FixReport, FixRefusal>,
) -> Result<Demonstration, DemoRefusal>
    requires { 1 ≤ plan.sectors }
    ensures { (old : DeskState)
        → IsRepaired plan image.now ecc.now old (D.state desk.old) image_sum fixed
        → IsDemo plan image.now ecc.now old (D.state desk.new) result }
{
    match fixed {
        Ok(fixed) => match tell(alloc, desk, image, ecc, plan, image_sum, &fixed) {
            Ok(shown) => Ok(shown),
            Err(why) => Err(DemoRefusal::from(why)),
        },
        Err(why) => Err(DemoRefusal::Fix(why)),
    }
}

// All steps, on two names.
fn demonstrate_one<D: Desk>(
    alloc: Global,
    desk: &mut D,
    image: &str,
    ecc: &str,
    plan: Plan,
) -> Result<Demonstration, DemoRefusal>
    requires differ { image.now ≢ ecc.now }
    requires range { IsInRange plan }
    ensures { IsDemo plan image.now ecc.now (D.state desk.old) (D.state desk.new) result }
{
    match make_image(alloc, desk, image, plan.number, plan.sectors) {
        Ok(()) => {
            let made = create_one(alloc, desk, image, ecc, plan.parity);
            match mark(desk, image, plan, made) {
                Ok(image_sum) => {
                    let fixed = fix_one(alloc, desk, image, ecc, false);
                    finish(alloc, desk, image, ecc, plan, image_sum, fixed)
                }
                Err(why) => Err(why),
            }
        }
        Err(why) => Err(why),
    }
}

// All steps, on two names, by two workers.
fn demonstrate<R: Threads + Wait + Sync, D: Desk, G: Gate>(
    rt: &R,
    alloc: Global,
    desk: &mut D,
    image: &str,
    ecc: &str,
    plan: Plan,
    gate: &G,
) -> Result<Demonstration, DemoRefusal>
    requires differ { image.now ≢ ecc.now }
    requires range { IsInRange plan }
    ensures { IsDemo plan image.now ecc.now (D.state desk.old) (D.state desk.new) result }
{
    match make_image(alloc, desk, image, plan.number, plan.sectors) {
        Ok(()) => {
            let made = create(rt, alloc, desk, image, ecc, plan.parity, 2, gate);
            match mark(desk, image, plan, made) {
                Ok(image_sum) => {
                    let fixed = fix(rt, alloc, desk, image, ecc, false, 2, gate);
                    finish(alloc, desk, image, ecc, plan, image_sum, fixed)
                }
                Err(why) => Err(why),
            }
        }
        Err(why) => Err(why),
    }
}

/// Shows what the codec does, on the files `demo.iso` and `demo.ecc`: an image of so many sectors is made from a number,
/// its error correction file with so many parity bytes a codeword is made, the first sectors of the image are marked as
/// missing, and the image is repaired. Tells the digest of the image, the one that the error correction file records of
/// its other bytes, how many sectors were restored and how many are lost, and whether the image is the one that was made.
///
/// What stood under the two names is overwritten; no other file changes. A fault or want of memory in any step ends the
/// work there. Then the image is as before, or has some first bytes of the made one; or it is whole and the other file is
/// begun; or that is whole too and some first bytes of the image are the damaged ones; or the image is on the way to the
/// repaired one. On a desk that tells its files there is no other refusal: no image that is made has a sector that looks
/// as if it were missing.
pub fn demo_one<D: Desk>(
    alloc: Global,
    desk: &mut D,
    number: u64,
    sectors: u32,
    parity: u32,
    lost: u32,
) -> Result<Demonstration, DemoRefusal>
    requires { IsInRange (plan_of number sectors parity lost) }
    ensures { IsDemo (plan_of number sectors parity lost) image_name ecc_name
        (D.state desk.old) (D.state desk.new) result }
{
    let plan = Plan {
        number,
        sectors,
        parity,
        lost,
    };
    demonstrate_one(alloc, desk, "demo.iso", "demo.ecc", plan)
}

/// The same by two workers, of which the caller is one: the files and what is told are those of `demo_one`.
///
/// Nothing is said of whether it returns, since it waits for the other.
pub fn demo<R: Threads + Wait + Sync, D: Desk, G: Gate>(
    rt: &R,
    alloc: Global,
    desk: &mut D,
    number: u64,
    sectors: u32,
    parity: u32,
    lost: u32,
    gate: &G,
) -> Result<Demonstration, DemoRefusal>
    requires { IsInRange (plan_of number sectors parity lost) }
    ensures { IsDemo (plan_of number sectors parity lost) image_name ecc_name
        (D.state desk.old) (D.state desk.new) result }
{
    let plan = Plan {
        number,
        sectors,
        parity,
        lost,
    };
    demonstrate(rt, alloc, desk, "demo.iso", "demo.ecc", plan, gate)
}
