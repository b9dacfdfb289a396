//! Laws of chains: facts, without code.
ghost use Rattle.mk_why.specs.Chains.{ChainsAreSwept};

/// Every allocation to which there is a chain is swept, so that a sweep keeps it.
pub fn chains_lead_to_what_is_swept()
    ensures { ChainsAreSwept }
{}
