// The steps of a witness.
ghost use Rattle.std.specs.Prelude.{◌≡◌};
ghost use Rattle.proof_rules.specs.Judging.{step_of};

use fddevs::scheme::Move;

// The step that three bytes write.
pub fn move_of(kind: u8, high: u8, low: u8) -> Option<Move>
    ensures { result ≡ step_of kind high low }
{
    match (kind, high) {
        (0, _) => Some(Move::Delay(u32::from(u16::from_be_bytes([high, low])))),
        (1, 0) => Some(Move::Outer(low)),
        (2, 0) => Some(Move::Internal(low)),
        _ => None,
    }
}
