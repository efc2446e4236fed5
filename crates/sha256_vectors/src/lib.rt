//! The published examples of SHA-256 (FIPS 180-4) and of HMAC-SHA-256 (RFC 4231), run as tests of the crate `sha256`.
#![tactic(auto)]

#[cfg(test)]
mod tests;
