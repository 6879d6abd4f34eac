ghost use Rattle.std.specs.Prelude.{◌≡◌, true};
ghost use Rattle.fddevs.specs.Vetting.{Tells};
ghost use Rattle.timers.specs.Faults.{Fault};
ghost use Rattle.timers.specs.Timers.{short, count_fits, first_long, vetting};

use crate::setting::Setting;
use fddevs::refusal::Refusal;

impl Setting {
    fn is_short(self) -> bool
        ensures { result ≡ short self }
    {
        self.operate <= 65_534 && self.hold <= 65_534
    }
}

// The first setting that is too long. There are at most 16, so that its number fits where it is cast.
fn check_times(settings: &[Setting]) -> Result<(), Refusal>
    requires { count_fits settings.now ≡ true }
    ensures { result ≡ first_long settings.now }
{
    match settings.iter().position(|setting| !setting.is_short()) {
        None => Ok(()),
        Some(k) => Err(Refusal::TimerTime(k as u8)),
    }
}

fn check_all(settings: &[Setting]) -> Result<(), Refusal>
    ensures { result ≡ vetting settings.now }
{
    if settings.is_empty() || settings.len() > 16 {
        return Err(Refusal::TimerCount);
    }
    check_times(settings)
}

// Whether these settings make a timer bank: 1 to 16 timers, and times of at most 65,534 ticks.
pub fn vet(settings: &[Setting]) -> Result<(), Refusal>
    ensures answer { result ≡ vetting settings.now }
    ensures tells { Tells (Fault settings.now) result }
{
    check_all(settings)
}
