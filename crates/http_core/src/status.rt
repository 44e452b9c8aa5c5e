//! The statuses of answers (RFC 9110, section 15; RFC 6585, section 5; RFC 4918, section 11.5).

pub(crate) const OK: u16 = 200;

pub(crate) const NO_CONTENT: u16 = 204;

pub(crate) const BAD_REQUEST: u16 = 400;

pub(crate) const NOT_FOUND: u16 = 404;

pub(crate) const METHOD_NOT_ALLOWED: u16 = 405;

pub(crate) const CONFLICT: u16 = 409;

pub(crate) const LENGTH_REQUIRED: u16 = 411;

pub(crate) const CONTENT_TOO_LARGE: u16 = 413;

pub(crate) const EXPECTATION_FAILED: u16 = 417;

pub(crate) const REQUEST_HEADER_FIELDS_TOO_LARGE: u16 = 431;

pub(crate) const NOT_IMPLEMENTED: u16 = 501;

pub(crate) const HTTP_VERSION_NOT_SUPPORTED: u16 = 505;

pub(crate) const INSUFFICIENT_STORAGE: u16 = 507;
