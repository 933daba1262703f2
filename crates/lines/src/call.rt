// A call as a line gives it, its keys of any kind.
use requests::Request;

#[derive(Clone, Copy, PartialEq, Eq, Debug, Drop)]
pub enum Call<K> {
    Submit { station: u32, request: Request<K> },
    // The request is the one followed, by its number.
    Follow { station: u32, request: u32 },
    Carry { station: u32 },
    Collect { station: u32 },
}
