// The two faults that a reply tells.
ghost use Rattle.std.specs.Prelude.{◌≡◌, ◌≤◌, length};
ghost use Rattle.http.specs.StatusCode.{IsStatusCode};
ghost use Rattle.http_wire.specs.Statuses.{fault_status};
ghost use Rattle.http_wire.specs.Replies.{fault_body};

/// Why a request got no answer of the office.
#[derive(Clone, Copy, Debug, PartialEq, Eq)]
pub enum Fault {
    /// What keeps the records failed.
    Keeper,
    /// There was no memory.
    Memory,
}

impl Fault {
    /// 503 or 507.
    pub fn status(self) -> u16
        ensures value { result ≡ fault_status self }
        ensures valid { IsStatusCode result }
    {
        match self {
            Fault::Keeper => 503,
            Fault::Memory => 507,
        }
    }

    /// The body of the reply.
    pub fn body(self) -> &'static [u8]
        ensures value { result.now ≡ fault_body self }
        ensures short { length result.now ≤ 18 }
    {
        match self {
            Fault::Keeper => br#"{"fault":"keeper"}"#,
            Fault::Memory => br#"{"fault":"memory"}"#,
        }
    }
}
