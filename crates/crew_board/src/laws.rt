//! The laws of the claim machine. The functions do nothing: their contracts are the laws.

ghost use Rattle.crew_board.specs.Claim.{ClaimLaw};
ghost use Rattle.crew_board.specs.Reach.{BoardLaw};

/// In whatever order the workers draw and perform: once each of them drew a number that is no job's, each job stands in exactly one
/// worker's list, once; each list rises; and the result of each job is what performing it gives.
pub fn claim_law()
    ensures { ClaimLaw }
{}

/// Between any two steps on it the claim board is a state of the claim machine: its word is the next number, and the lists in its
/// seats' views are the drawn lists. The fetch-and-add is the machine's draw.
pub fn board_law()
    ensures { BoardLaw }
{}
