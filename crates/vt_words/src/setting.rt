ghost use Rattle.std.specs.Prelude.{◌≡◌};
ghost use Rattle.word_schema.specs.Taken.{skip};
ghost use Rattle.vt_words.specs.Settings.{setting_of};

use crate::policy::policy_at;
use word_schema::Values;
use zone_alloc::Policy;

/// How files are loaded: what the options say that `boot` and `load` share.
#[derive(Clone, Copy, Debug, PartialEq, Eq)]
pub struct Setting {
    /// What each byte of memory is at the beginning.
    pub fill: u8,
    /// How the guest's allocator chooses where files stand. `Scatter` has the seed of the words.
    pub policy: Policy,
    /// The seed of the events.
    pub seed: u64,
}

impl Setting {
    // Takes out what the options of a setting say.
    pub(crate) fn take(values: &mut Values) -> Setting
        ensures setting { result ≡ setting_of values.old }
        ensures rest { values.new ≡ skip 3 values.old }
    {
        let fill = values.take_number(u8::MAX as u64) as u8;
        let place = values.take_word();
        let seed = values.take_number(u64::MAX);
        Setting {
            fill,
            policy: policy_at(seed, place),
            seed,
        }
    }
}
