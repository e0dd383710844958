// Which settings are refused by 16.
ghost use Rattle.std.specs.Prelude.{◌≡◌};
ghost use Rattle.eon_spec.specs.Calls.{good_setting, good_settings};

use eon_spec::{FormatOptions, SETTING_MAX, Setting};
use eon_utf8::is_utf8;

// No setting is over SETTING_MAX bytes, and each is UTF-8.
pub fn good_settings(options: &FormatOptions) -> bool
    ensures { result ≡ good_settings options.now }
{
    good_setting(&options.indentation)
        && good_setting(&options.newline)
        && good_setting(&options.space_before_suffix_comment)
        && good_setting(&options.key_value_separator)
}

fn good_setting(setting: &Setting) -> bool
    ensures { result ≡ good_setting setting.now }
{
    setting.len <= SETTING_MAX && is_utf8(setting.text())
}
