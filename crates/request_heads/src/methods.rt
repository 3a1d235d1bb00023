//! The methods that are known (RFC 9110, section 9).
ghost use Rattle.std.specs.Prelude.{◌≡◌, Some, None, IfSome};
ghost use Rattle.definitions.specs.Values.{entry};
ghost use Rattle.http_definitions.specs.Heads.{methods};
ghost use Rattle.request_heads.specs.Methods.{method_text};

/// A known method.
#[derive(Clone, Copy, Debug, Drop, PartialEq)]
pub enum Method {
    Put,
    Delete,
    Post,
    Get,
}

impl Method {
    /// The method of this name, in capital letters.
    pub fn of(name: &[u8]) -> Option<Method>
        ensures some { IfSome result (λ m. method_text m ≡ name.now) }
        ensures none { result ≡ None → entry name.now methods ≡ None }
    {
        if name == b"PUT".as_slice() {
            Some(Method::Put)
        } else if name == b"DELETE".as_slice() {
            Some(Method::Delete)
        } else if name == b"POST".as_slice() {
            Some(Method::Post)
        } else if name == b"GET".as_slice() {
            Some(Method::Get)
        } else {
            None
        }
    }

    /// The name, in capital letters.
    pub fn name(self) -> &'static str
        ensures { result.now ≡ method_text self }
    {
        match self {
            Method::Put => "PUT",
            Method::Delete => "DELETE",
            Method::Post => "POST",
            Method::Get => "GET",
        }
    }

    /// Whether the head has to tell the length of the body.
    pub fn must_tell(self) -> bool
        ensures { entry (method_text self) methods ≡ Some result }
    {
        match self {
            Method::Put | Method::Post => true,
            Method::Delete | Method::Get => false,
        }
    }
}
