//! Why calls failed, for a person. No clause says what is kept; tests do.
use rs01_outside::Failed;
use std::alloc::Global;
use std::cell::Cell;
use std::fmt::{self, Display, Formatter, Write};
use std::io::Error;
use std::rc::Rc;

/// Why a call failed.
#[derive(Clone, Copy)]
pub enum Reason {
    /// The system refused it.
    System(Error),
    /// There is no such name.
    Absent,
    /// The name stands for a folder, a pipe or a character device.
    NotAFile,
    /// Another open of the file holds its lock.
    Locked,
    /// The file was moved, replaced or cut during the work.
    Changed,
    /// The file is open under another name as well.
    SecondName,
    /// The file is no error correction file, and another open one is.
    Swapped,
    /// The file would become longer than this process may make one.
    TooLong,
    /// The file keeps its length, as a device does.
    Uncut,
    /// The sector lies past the end.
    PastEnd,
}

// What is told of a reason that isn't the system's.
fn told(reason: Reason) -> &'static str {
    match reason {
        Reason::System(_) => "the system refused a call",
        Reason::Absent => "No such file or directory",
        Reason::NotAFile => "not a file or a block device",
        Reason::Locked => "another run has it open to change it",
        Reason::Changed => "it was moved, replaced or cut during the work",
        Reason::SecondName => "it is open under another name as well",
        Reason::Swapped => "it isn't an error correction file, but the other name's is: swapped?",
        Reason::TooLong => "it would become longer than a file may be here",
        Reason::Uncut => "it keeps its length, as a device does",
        Reason::PastEnd => "it ends before a sector that was asked for",
    }
}

impl Display for Reason {
    fn fmt<W: Write>(&self, f: &mut Formatter<W>) -> fmt::Result {
        match *self {
            Reason::System(error) => write!(f, "{error}"),
            other => f.write_str(told(other)),
        }
    }
}

/// Why the first call on a name failed.
#[derive(Drop)]
pub struct Cause {
    name: String,
    reason: Reason,
}

impl Cause {
    /// The name.
    pub fn name(&self) -> &str {
        self.name.as_str()
    }

    /// Why.
    pub fn reason(&self) -> Reason {
        self.reason
    }
}

// The list that all shares have.
#[derive(Drop)]
struct Shared {
    alloc: Global,
    list: Cell<Vec<Cause>>,
}

/// Why calls failed: for each name the reason of its first failed call. Its shares keep one list, so
/// that a desk and boxed drives tell one who made it. What there is no memory for is left out.
#[derive(Drop)]
pub struct Causes {
    shared: Option<Rc<Shared>>,
}

impl Causes {
    /// A list that holds nothing yet.
    pub fn new(alloc: Global) -> Causes {
        let shared = Shared {
            alloc,
            list: Cell::new(Vec::new(alloc)),
        };
        Causes {
            shared: Rc::new(alloc, shared).ok(),
        }
    }

    /// One that keeps nothing. It takes no memory.
    pub fn none() -> Causes {
        Causes { shared: None }
    }

    /// Another one that keeps the same list.
    pub fn share(&self) -> Causes {
        match &self.shared {
            Some(shared) => Causes {
                shared: shared.clone().ok(),
            },
            None => Causes::none(),
        }
    }

    /// The list, in the order of the failures. It is given once.
    pub fn take(&self) -> Option<Vec<Cause>> {
        match &self.shared {
            Some(shared) => Some(shared.list.replace(Vec::new(shared.alloc))),
            None => None,
        }
    }

    // Keeps why a call on a name failed, where it did and none on that name did before.
    pub(crate) fn note<T>(&self, name: &str, outcome: &Result<T, Failed>, reason: Option<Reason>) {
        let (Err(_), Some(shared), Some(reason)) = (outcome, &self.shared, reason) else {
            return;
        };
        let mut list = shared.list.replace(Vec::new(shared.alloc));
        if !list.iter().any(|cause| cause.name.as_str() == name) {
            if let Ok(name) = String::from_str(shared.alloc, name) {
                let _ = list.push(Cause { name, reason });
            }
        }
        shared.list.set(list);
    }
}
