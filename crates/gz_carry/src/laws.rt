//! Each rule of a member is carried: the sentences of `specs/Carried`.
ghost use Rattle.gz_carry.specs.Carried.{CarriesAdopt, CarriesHead, CarriesPromise, CarriesReplicate};
ghost use Rattle.gz_carry.specs.Carried.{CarriesAdopted, CarriesPromised, CarriesRefusal, CarriesRoute};
ghost use Rattle.gz_carry.specs.Carried.{CarriesStoreEnd, CarriesSynced};
ghost use Rattle.gz_carry.specs.Carried.{CarriesAppend, CarriesHeld, CarriesTrim, JudgesAlike};
ghost use Rattle.gz_carry.specs.Carried.{CarriesResending};
ghost use Rattle.gz_carry.specs.Carried.{NamesHaveNumbers, RunsHaveHistories};
ghost use Rattle.gz_carry.specs.Carried.{SeesNew, SeesOneMember, SeesTheEntry, StaysSeen};
ghost use Rattle.gz_carry.specs.Taking.{BrokersTake, CarriesMessage, LettersCome};

/// What a member does for a primary is what its node does: it promises, adopts an image, takes an entry and follows a
/// head.
pub fn members_are_carried()
    ensures promise { CarriesPromise }
    ensures adopt { CarriesAdopt }
    ensures replicate { CarriesReplicate }
    ensures head { CarriesHead }
{}

/// A primary opens as its node does: it takes a route, collects promises and the store's end, chooses, has its image
/// adopted, and writes the sync key.
pub fn openings_are_carried()
    ensures route { CarriesRoute }
    ensures promised { CarriesPromised }
    ensures store_end { CarriesStoreEnd }
    ensures adopted { CarriesAdopted }
    ensures synced { CarriesSynced }
    ensures refused { CarriesRefusal }
{}

/// An open primary leads as its node does: its head rises at the same answers, a request is judged the same and put as
/// the same entry, and what the store has got leaves the spool while the node stays.
pub fn primaries_are_carried()
    ensures held { CarriesHeld }
    ensures judged { JudgesAlike }
    ensures append { CarriesAppend }
    ensures trim { CarriesTrim }
{}

/// What a primary sends again when it is told to is what its node says again: it asks those that haven't told, or tells
/// its head and sends the entries that others aren't known to hold. Each of these has to be known to hold what the head
/// covers.
pub fn resending_is_carried()
    ensures { CarriesResending }
{}

/// Whatever another member sends is carried, in every world that has a history: what the member makes of a message that
/// is seen is seen in the node as it is, or in what the node makes of a letter that can come.
pub fn messages_are_carried()
    ensures { CarriesMessage }
{}

/// A letter that was ever said can come at any time: two events deliver it, neither ends handover, and what is in flight
/// stays. So flights of the two sides are never compared.
pub fn letters_come_again()
    ensures comes { LettersCome }
    ensures taken { BrokersTake }
{}

/// A message that is seen stays seen: letters are said and lists grow, and neither is taken back.
pub fn messages_stay_seen()
    ensures { StaysSeen }
{}

/// The relation of a member and a node holds at the start, and tells members apart: it isn't everything, and not nothing.
pub fn members_are_told_apart()
    ensures begins { SeesNew }
    ensures alike { SeesOneMember }
    ensures entry { SeesTheEntry }
{}

/// Names have numbers, as the sentences ask for.
pub fn names_have_numbers()
    ensures { NamesHaveNumbers }
{}

/// Every run of the reduced journal throughout which handover held has a history, as the sentences ask for.
pub fn runs_have_histories()
    ensures { RunsHaveHistories }
{}
