ghost use Rattle.std.specs.Prelude.{◌≡◌};
ghost use Rattle.frames.specs.Of.{lent_call, owned_call};

// A sender's calls as data; the information octets of one are lent or owned.
#[derive(Clone, Copy, Debug, Drop, PartialEq, Eq)]
pub enum Request<I> {
    Open(u16),
    Add(I),
    Adapt(u16),
    Fill(u16),
    Close,
    Abort,
    Spoil,
}

impl Request<Vec<u8>> {
    // The same call, its information lent.
    pub fn as_deref(&self) -> Request<&[u8]>
        ensures { lent_call result ≡ owned_call self.now }
    {
        match self {
            Request::Open(sapi) => Request::Open(*sapi),
            Request::Add(information) => Request::Add(information.as_slice()),
            Request::Adapt(pairs) => Request::Adapt(*pairs),
            Request::Fill(flags) => Request::Fill(*flags),
            Request::Close => Request::Close,
            Request::Abort => Request::Abort,
            Request::Spoil => Request::Spoil,
        }
    }
}
