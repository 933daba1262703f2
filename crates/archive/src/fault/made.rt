// Faults of each layer.
ghost use Rattle.std.specs.Prelude.{◌≡◌};
ghost use Rattle.archive.specs.Checks.{in_header, in_request, in_answer};

use super::super::layer::Layer;
use super::Fault;
use keys::Refusal;

impl Fault {
    pub fn in_header(refusal: Refusal, offset: usize) -> Fault
        ensures { result ≡ in_header refusal offset }
    {
        Fault {
            refusal,
            layer: Layer::Header,
            row: 0,
            offset,
        }
    }

    pub fn in_request(row: usize, offset: usize) -> Fault
        ensures { result ≡ in_request row offset }
    {
        Fault {
            refusal: Refusal::RequestRow,
            layer: Layer::Requests,
            row,
            offset,
        }
    }

    // Kept beside the other: a refusal and a layer differ, and a call names both by one word.
    pub fn in_answer(row: usize, offset: usize) -> Fault
        ensures { result ≡ in_answer row offset }
    {
        Fault {
            refusal: Refusal::AnswerRow,
            layer: Layer::Answers,
            row,
            offset,
        }
    }
}
