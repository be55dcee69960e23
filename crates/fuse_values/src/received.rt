//! The extensions of a request that makes a node, borrowed from the request.

use crate::placed::Placed;

/// A security label, borrowed from a request (`struct fuse_secctx`).
#[derive(Clone, Copy)]
pub struct Label<'a> {
    /// The label's name, for example `security.selinux`, without a zero byte.
    pub name: Placed<'a>,
    /// The label's bytes.
    pub secctx: Placed<'a>,
}

/// The extensions of a request, borrowed from it.
#[derive(Clone, Copy)]
pub struct Received<'a> {
    /// The new node's label, if the request has one (FUSE_SECURITY_CTX).
    pub secctx: Option<Label<'a>>,
    /// A supplementary group of the caller, if the request has one (FUSE_CREATE_SUPP_GROUP).
    pub sup_gid: Option<u32>,
}
