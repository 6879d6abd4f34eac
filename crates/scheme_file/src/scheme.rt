ghost use Rattle.std.specs.Prelude.{◌≡◌, true, is_ok};
ghost use Rattle.scheme_file.specs.File.{sections_of};
ghost use Rattle.scheme_file.specs.Vetting.{vetting};

use crate::section::Section;

// A scheme file that was vetted, and its sections.
#[derive(Drop)]
pub struct Scheme {
    pub(crate) file: Vec<u8>,
    pub(crate) sections: Vec<Section>,
    ghost vetted: { is_ok (vetting file.items) ≡ true },
    ghost listed: { sections.items ≡ sections_of file.items },
}
