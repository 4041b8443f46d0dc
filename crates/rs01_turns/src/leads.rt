//! What holds of a reader that goes on.
ghost use Rattle.rs01_turns.specs.Laws.{
  AskLeads,
  GiveLeads,
  LeadsOn,
  LeadsSame,
  LookLeads,
  ReadLeads,
  ReadyOn,
  WholeReading,
};
ghost use Rattle.rs01_turns.specs.Stops.{SectorsAreDone, WhereStopped};

/// What is kept between two moments is kept along a chain of them.
pub fn leads_are_kept()
    ensures same { LeadsSame }
    ensures on { LeadsOn }
    ensures ready { ReadyOn }
{}

/// Asking for the next sector, and writing what was read, keeps what a reader keeps.
pub fn ask_leads()
    ensures { AskLeads }
{}

/// Giving a layer, looking at layers and reading back from the desk keep what a reader keeps.
pub fn small_steps_lead()
    ensures give { GiveLeads }
    ensures look { LookLeads }
    ensures read { ReadLeads }
{}

/// A reader that went on until no sector was unread has done the whole rest of the reading.
pub fn whole_reading()
    ensures { WholeReading }
{}

/// Wherever a reader stops, it has done some first part of the rest. Once no sector is unread, each one is what asking
/// for it gives.
pub fn part_of_the_rest_is_done()
    ensures stopped { WhereStopped }
    ensures done { SectorsAreDone }
{}
