ghost use Rattle.std.specs.Prelude.{◌≡◌, false, not, IfSome, IfNone};
ghost use Rattle.http_core.specs.Rules.{is_get, is_put};
ghost use Rattle.http_core.specs.Method.{is_put_method};

/// The methods that the server knows.
#[derive(Clone, Copy, Debug, PartialEq, Eq)]
pub(crate) enum Method {
    Get,
    Put,
}

impl Method {
    /// Reads a method's name, which has case.
    pub(crate) fn read(name: &[u8]) -> Option<Method>
        ensures get { IfSome result (λ method. is_get name.now ≡ not (is_put_method method)) }
        ensures put { IfSome result (λ method. is_put name.now ≡ is_put_method method) }
        ensures not_get { IfNone result (is_get name.now ≡ false) }
        ensures not_put { IfNone result (is_put name.now ≡ false) }
    {
        match name {
            b"GET" => Some(Method::Get),
            b"PUT" => Some(Method::Put),
            _ => None,
        }
    }

    pub(crate) fn is_put(self) -> bool
        ensures { result ≡ is_put_method self }
    {
        matches!(self, Method::Put)
    }
}
