//! Targets, and the endpoints that they lead to.
ghost use Rattle.std.specs.Option.{IfNone};
ghost use Rattle.std.specs.Prelude.{◌≡◌, ◌++◌, ℕ, IfSome, List, true, None, Some};
ghost use Rattle.oai_http.specs.Targets as spec;

use crate::bytes::len_before;
use std::marker::Model;

/// The path of a repository's requests, up to its name.
pub const REQUESTS_FRONT: &str = "/oai/";

/// The path of a repository's deposits, up to its name.
pub const DEPOSITS_FRONT: &str = "/deposit/";

/// The endpoint of a target.
#[derive(Clone, Copy, Debug, PartialEq, Eq)]
pub enum Endpoint {
    /// The requests of a repository: the path begins with `/oai/`.
    Requests,
    /// The deposits of a repository: the path begins with `/deposit/`.
    Deposits,
}

/// What is parsed of a target: where its path ends, and the endpoint.
#[derive(Clone, Copy, Debug, PartialEq, Eq)]
pub struct TargetPath {
    /// The endpoint, by how the path begins, whether or not its repository exists; `None` if it begins in neither way.
    pub endpoint: Option<Endpoint>,
    /// The length of the path in bytes: of what is before the first `?`.
    pub len: usize,
}

/// A target with what was parsed of it. Contracts see its bytes.
#[derive(Debug, Drop)]
pub struct Target<'a> {
    bytes: &'a [u8],
    path: TargetPath,
}

impl<'a> Model for Target<'a> {
    ghost use Rattle.std.specs.Prelude.{◌≡◌, ℕ, List};
    ghost use Rattle.oai_http.specs.Targets.{parsed_path};

    ghost Value = { List ℕ };

    ghost view = { λ t. t.bytes.now };

    ghost invariant = { λ t. t.path ≡ parsed_path t.bytes.now };
}

impl<'a> Target<'a> {
    /// The target of these bytes, which are parsed.
    pub fn new(bytes: &'a [u8]) -> Target<'a>
        ensures { result ≡ bytes.now }
    {
        Target {
            bytes,
            path: parse_path(bytes),
        }
    }

    /// The target of these bytes, of which that was parsed before.
    pub fn parsed(bytes: &'a [u8], path: TargetPath) -> Target<'a>
        requires { path ≡ spec.parsed_path bytes.now }
        ensures { result ≡ bytes.now }
    {
        Target { bytes, path }
    }

    /// Its bytes.
    pub fn bytes(&self) -> &'a [u8]
        ensures { result.now ≡ self.now }
    {
        self.bytes
    }

    /// Its endpoint, whether or not its repository exists; `None` if the path begins as that of neither.
    pub fn endpoint(&self) -> Option<Endpoint>
        ensures { result ≡ spec.endpoint_of self.now }
    {
        self.path.endpoint
    }

    /// Its endpoint, and the name at the end of its path, whether or not a repository has it; `None` if the path begins
    /// as that of neither endpoint.
    pub fn named(&self) -> Option<(Endpoint, &'a [u8])>
        ensures named { IfSome result (λ named. spec.path_of self.now
            ≡ spec.front_of named.0 ++ named.1.now) }
        ensures none { IfNone result (spec.endpoint_of self.now ≡ None) }
    {
        match self.path.endpoint {
            Some(endpoint) => Some((endpoint, name_in(self.bytes, endpoint, self.path.len))),
            None => None,
        }
    }

    /// Its query: the bytes after the first `?`, or none if there is none.
    pub fn query(&self) -> &'a [u8]
        ensures { result.now ≡ spec.query_of self.now }
    {
        query_behind(self.bytes, self.path.len)
    }

    /// Whether it begins with `/`.
    pub fn is_rooted(&self) -> bool
        ensures { result ≡ spec.is_rooted self.now }
    {
        self.bytes.strip_prefix(b"/").is_some()
    }
}

impl Endpoint {
    /// The path of a repository there, up to its name.
    fn front(self) -> &'static str
        ensures { result.now ≡ spec.front_of self }
    {
        match self {
            Endpoint::Requests => REQUESTS_FRONT,
            Endpoint::Deposits => DEPOSITS_FRONT,
        }
    }
}

/// What is parsed of a target.
pub fn parse_path(target: &[u8]) -> TargetPath
    ensures { result ≡ spec.parsed_path target.now }
{
    let len = len_before(b'?', target);
    TargetPath {
        endpoint: endpoint_at(&target[..len]),
        len,
    }
}

/// The endpoint of a path, by how it begins; `None` if it begins in neither way.
fn endpoint_at(path: &[u8]) -> Option<Endpoint>
    ensures { result ≡ spec.endpoint_at path.now }
{
    if path.starts_with(REQUESTS_FRONT.as_bytes()) {
        Some(Endpoint::Requests)
    } else if path.starts_with(DEPOSITS_FRONT.as_bytes()) {
        Some(Endpoint::Deposits)
    } else {
        None
    }
}

/// The name at the end of the path of a target with that endpoint, whose path has `path` bytes.
fn name_in(target: &[u8], endpoint: Endpoint, path: usize) -> &[u8]
    requires endpoint { spec.endpoint_of target.now ≡ Some endpoint }
    requires path { path ≡ spec.path_len target.now }
    ensures { spec.path_of target.now ≡ spec.front_of endpoint ++ result.now }
{
    &target[endpoint.front().len()..path]
}

/// The query of a target whose path has `path` bytes.
fn query_behind(target: &[u8], path: usize) -> &[u8]
    requires { path ≡ spec.path_len target.now }
    ensures { result.now ≡ spec.query_of target.now }
{
    if path < target.len() {
        &target[path + 1..]
    } else {
        &[]
    }
}

/// The path alone decides the endpoint of a target, whichever the repository; and no target leads to two repositories.
/// A theorem, proved by an empty function.
pub fn path_law()
    ensures endpoint { (endpoint : Endpoint) (name target : List ℕ)
        → spec.leads_to endpoint name target ≡ true → spec.endpoint_of target ≡ Some endpoint }
    ensures one { (one other target : List ℕ) → spec.leads_to_repository one target ≡ true
        → spec.leads_to_repository other target ≡ true → one ≡ other }
{}
