// Making sections, reading their names, and their order.
ghost use Rattle.std.specs.Prelude.{◌≡◌, ◌≤◌, length, refl};
ghost use Rattle.std.proofs.Common.{sym, ◌∙◌};
ghost use Rattle.keys.specs.Names.{filled, name_in};
ghost use Rattle.keys.specs.Sections.{section_le, section_made, section_of};
ghost use Rattle.keys.specs.Texts.{text_refl, text_total, text_trans, text_antisym};
ghost use Rattle.keys.specs.SectionsLemmas.{section_path, section-bytes-le, section_kept};

use super::super::key::Key;
use super::super::refusal::Refusal;
use super::Section;
use super::names::{LONGEST_NAME, is_name, is_section};
use octets::before;

// The eight bytes of a name.
fn fill(name: &[u8]) -> [u8; 8]
    requires { length name.now ≤ 8 }
    ensures { result ≡ filled name.now }
{
    let mut bytes = [0u8; LONGEST_NAME];
    bytes[..name.len()].copy_from_slice(name);
    bytes
}

impl Section {
    // The section of this name, where it is one.
    // Kept: a section is made of text as a route is of numbers and a class, each by `new`; nothing is generic over it.
    pub fn new(name: &[u8]) -> Result<Section, Refusal>
        ensures { result ≡ section_of name.now }
    {
        if !is_name(name) {
            return Err(Refusal::OutOfRange);
        }
        Ok(Section { bytes: fill(name) })
    }

    pub fn name(&self) -> &[u8]
        ensures { result.now ≡ name_in self.now.bytes }
    {
        before(&self.bytes, 0)
    }
}

impl Key for Section {
    type Fields = [u8; 8];

    ghost le = { section_le };

    ghost parts = { λ a. a.bytes };

    ghost made = { section_made };

    ghost reflexive = { λ a. text_refl (name_in a.bytes) };

    ghost total = { λ a b. text_total (name_in a.bytes) (name_in b.bytes) };

    ghost transitive = { λ a b c. text_trans (name_in a.bytes) (name_in b.bytes) (name_in c.bytes) };

    ghost antisymmetric = { λ a b e f. section_path a b (text_antisym a.bytes b.bytes (sym (section-bytes-le a b) ∙ e) (sym (section-bytes-le b a) ∙ f)) };

    ghost remade = { λ a. sym (section_kept a a.bytes refl) };

    fn at_most(self, other: Section) -> bool {
        self.bytes <= other.bytes
    }

    fn fields(self) -> [u8; 8] {
        self.bytes
    }

    fn from_fields(fields: [u8; 8]) -> Section {
        if is_section(&fields) {
            return Section { bytes: fields };
        }
        Section {
            bytes: *b"A\0\0\0\0\0\0\0",
        }
    }
}
