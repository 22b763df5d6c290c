// The methods by which the office is asked.
ghost use Rattle.std.specs.Prelude.{◌≡◌, ◌≤◌, length};
ghost use Rattle.http_wire.specs.Methods.{method_name};

/// A method that a page of the office can have. A message may come with any other method, so a message has its method as bytes.
#[derive(Clone, Copy, PartialEq, Eq)]
pub enum Method {
    Get,
    Post,
}

impl Method {
    /// Its name in a request.
    pub fn name(self) -> &'static [u8]
        ensures name { result.now ≡ method_name self }
        ensures short { length result.now ≤ 4 }
    {
        match self {
            Method::Get => b"GET",
            Method::Post => b"POST",
        }
    }
}
