ghost use Rattle.std.specs.Prelude.{◌≡◌, true, is_ok};
ghost use Rattle.timers.specs.Timers.{vetting};

use crate::setting::Setting;

// Timers whose settings were vetted.
#[derive(Drop)]
pub struct Timers {
    pub(crate) settings: Vec<Setting>,
    ghost vetted: { is_ok (vetting settings.items) ≡ true },
}
