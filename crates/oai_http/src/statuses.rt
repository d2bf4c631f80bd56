ghost use Rattle.std.specs.Prelude.{◌≡◌};
ghost use Rattle.oai_http.specs.Statuses as spec;

/// The status of an answer (RFC 9110, section 15).
#[derive(Clone, Copy, Debug, PartialEq, Eq)]
pub enum Status {
    /// The exchange was performed, and the body is its answer.
    Ok,
    /// The message, or its target, is malformed.
    BadRequest,
    /// The message has no key of those that its target asks for.
    Unauthorized,
    /// No repository has that path.
    NotFound,
    /// The target does not allow the method.
    MethodNotAllowed,
    /// The body is longer than the limit.
    ContentTooLarge,
    /// The body has another media type than the target takes.
    UnsupportedMediaType,
    /// The exchange failed.
    InternalServerError,
    /// The message needs a feature that is not supported.
    NotImplemented,
    /// The exchange cannot be performed now.
    ServiceUnavailable,
}

impl Status {
    /// The number of the status, from 200 to 503.
    pub fn number(self) -> u16
        ensures { result ≡ spec.number_of self }
    {
        match self {
            Status::Ok => 200,
            Status::BadRequest => 400,
            Status::Unauthorized => 401,
            Status::NotFound => 404,
            Status::MethodNotAllowed => 405,
            Status::ContentTooLarge => 413,
            Status::UnsupportedMediaType => 415,
            Status::InternalServerError => 500,
            Status::NotImplemented => 501,
            Status::ServiceUnavailable => 503,
        }
    }

    /// The reason phrase of the number.
    pub fn phrase(self) -> &'static str
        ensures { result.now ≡ spec.phrase_of self }
    {
        match self {
            Status::Ok => "OK",
            Status::BadRequest => "Bad Request",
            Status::Unauthorized => "Unauthorized",
            Status::NotFound => "Not Found",
            Status::MethodNotAllowed => "Method Not Allowed",
            Status::ContentTooLarge => "Content Too Large",
            Status::UnsupportedMediaType => "Unsupported Media Type",
            Status::InternalServerError => "Internal Server Error",
            Status::NotImplemented => "Not Implemented",
            Status::ServiceUnavailable => "Service Unavailable",
        }
    }
}
