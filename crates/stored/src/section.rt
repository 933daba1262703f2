// Sections in eight bytes.
ghost use Rattle.std.specs.Prelude.{◌≡◌, refl};
ghost use Rattle.stored.specs.Forms.{in_range};
ghost use Rattle.stored.specs.SectionBytes.{section_form, section_read};
ghost use Rattle.stored.specs.SectionBytesLemmas.{section_read_kept};
ghost use Rattle.std.proofs.Common.{rules};

use super::key::StoredKey;
use keys::{Key, Refusal, Section};

// The section of these eight bytes. Bytes that hold no name make a section with other bytes.
fn section_of(bytes: [u8; 8]) -> Result<Section, Refusal>
    ensures { result ≡ in_range (section_read bytes) }
{
    let section = Section::from_fields(bytes);
    if section.fields() == bytes {
        return Ok(section);
    }
    Err(Refusal::OutOfRange)
}

impl StoredKey for Section {
    ghost form = { section_form };

    ghost wide = { Prim.search rules };

    ghost long = { Prim.search rules };

    ghost reread = { λ k. section_read_kept _ k refl };

    ghost rewritten = { Prim.search rules };

    fn width() -> usize {
        8
    }

    fn put(self, row: &mut [u8]) -> Result<usize, Refusal> {
        let front = row.first_chunk_mut::<8>().ok_or(Refusal::TooShort)?;
        *front = self.fields();
        Ok(8)
    }

    fn get(row: &[u8]) -> Result<Section, Refusal> {
        let front = row.first_chunk::<8>().ok_or(Refusal::TooShort)?;
        section_of(*front)
    }
}
