//! The loops of a module begin with the heads of its program's branch graph, as a theorem.
//!
//! The function does nothing: its contract states the theorem, which stands in `specs/Laws.antt`.
#![tactic(auto)]

ghost use Rattle.head_sites.specs.Laws.{HeadersMeetTheirHeads};

/// Where no ring is crossed and few blocks are reachable, the first site that any path of branch edges from a loop header meets is that of one head, whatever the path.
pub fn headers_meet_their_heads()
    ensures { HeadersMeetTheirHeads }
{}
