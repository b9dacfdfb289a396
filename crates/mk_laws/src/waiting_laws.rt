//! Who waits for whom: facts only, with no code.

ghost use Rattle.mk_laws.specs.{Theorems.OfHistories, Waiting.{NobodyEverWaitsInARing, RestingCallsAreAdmitted}};

/// Nobody waits in a ring. Who is waited for has the turn, or is out of the way after at most seven steps of its own,
/// each of which may come whatever others did; and whom the turn's holder waits for is of the second kind.
#[tactic(auto, using(crate::proofs::Waiting::nobody_waits_in_a_ring_facts))]
pub fn nobody_waits_in_a_ring()
    ensures waits { OfHistories NobodyEverWaitsInARing }
    ensures at_rest { RestingCallsAreAdmitted }
{}
