// A request: what a station asks, with its key or keys.
ghost use Rattle.std.specs.Prelude.{◌≡◌};
ghost use Rattle.requests.specs.Requests.{kind_of};

use super::kind::Kind;

#[derive(Clone, Copy, PartialEq, Eq, Debug)]
pub enum Request<K> {
    Enter(K),
    Withdraw(K),
    LookUp(K),
    // How many keys from the first to the second, both included.
    Count(K, K),
}

impl<K> Request<K> {
    pub fn kind(&self) -> Kind
        ensures { result ≡ kind_of self.now }
    {
        match self {
            Request::Enter(_) => Kind::Enter,
            Request::Withdraw(_) => Kind::Withdraw,
            Request::LookUp(_) => Kind::LookUp,
            Request::Count(_, _) => Kind::Count,
        }
    }
}
