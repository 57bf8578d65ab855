//! What holds of the definitions: each function's contract is a law, and its body does nothing.

ghost use Rattle.hls_chron.specs.Ledger.{Ledger};
ghost use Rattle.hls_kinds.specs.Tags.{start_tag, MeetTagRules};

/// The start tags meet their rules by themselves: each is the one that the start tags of earlier
/// ticks give. So it does not matter in how many rounds they are computed.
pub fn start_tags_meet_their_rules(quantum: u32)
    ensures { (b : Ledger) → MeetTagRules quantum b (start_tag quantum b) }
{}
