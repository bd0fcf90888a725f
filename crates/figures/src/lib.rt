//! Worked figures, proved: what the definitions of the calls compute is what is written here.
#![tactic(auto)]

ghost use Rattle.std.specs.Prelude.{◌≡◌, [], ◌∷◌};
ghost use Rattle.figures.specs.Computed.{computed};
ghost use Rattle.figures.specs.Constants.{constants_told, Fairness};

/// The ticket kind at starting age 4294967295: the lock word after one ask, and after the leave.
pub fn figures() -> [u64; 2]
    ensures computed { result ≡ computed }
    ensures written { result ≡ 0x00000000FFFFFFFF ∷ (0 ∷ []) }
{
    [0x00000000FFFFFFFF, 0]
}

/// M, A and R of the ticket kind, which is fair, and M of the central kind, which is not.
pub fn constants() -> [u64; 4]
    ensures told { result ≡ constants_told }
    ensures written { result ≡ 4294967296 ∷ (1 ∷ (0 ∷ (9223372036854775808 ∷ []))) }
    ensures fairness { Fairness }
{
    [4294967296, 1, 0, 9223372036854775808]
}
