//! The extensions of a request that makes a node.

ghost use Rattle.std.specs.Prelude.{◌≡◌, [], IfOk};
ghost use Rattle.fuse_fs.specs.Answers.{extra_of, security_of};

use fuse_base::GuestGid;
use std::alloc::{AllocError, Global};

/// The security label of a new node (`struct fuse_secctx`).
#[derive(Debug, Drop)]
pub struct SecContext {
    /// The label's name, for example `security.selinux`, without a zero byte.
    pub name: Vec<u8>,
    /// The label's bytes.
    pub secctx: Vec<u8>,
}

impl SecContext {
    /// An empty name and label. It takes no memory.
    pub fn empty(alloc: Global) -> SecContext
        ensures name { result.name.items ≡ [] }
        ensures secctx { result.secctx.items ≡ [] }
    {
        SecContext {
            name: Vec::new(alloc),
            secctx: Vec::new(alloc),
        }
    }

    /// A copy in memory of its own. AllocError if an allocation fails.
    pub fn try_clone(&self, alloc: Global) -> Result<SecContext, AllocError>
        ensures { IfOk result (λ copy. security_of copy ≡ security_of self.now) }
    {
        Ok(SecContext {
            name: copied(alloc, &self.name)?,
            secctx: copied(alloc, &self.secctx)?,
        })
    }
}

/// The extensions of a request that makes a node, if guest and server agreed on them (virtiofsd's
/// `Extensions`).
#[derive(Debug, Default, Drop)]
pub struct Extensions {
    /// The new node's label, if the request has one (FUSE_SECURITY_CTX).
    pub secctx: Option<SecContext>,
    /// A supplementary group of the caller, if the request has one (FUSE_CREATE_SUPP_GROUP).
    pub sup_gid: Option<GuestGid>,
}

impl Extensions {
    /// A copy in memory of its own. AllocError if an allocation fails.
    pub fn try_clone(&self, alloc: Global) -> Result<Extensions, AllocError>
        ensures { IfOk result (λ copy. extra_of copy ≡ extra_of self.now) }
    {
        let secctx = match &self.secctx {
            Some(label) => Some(label.try_clone(alloc)?),
            None => None,
        };
        Ok(Extensions {
            secctx,
            sup_gid: self.sup_gid,
        })
    }
}

// A copy of bytes in memory of its own. AllocError if the allocation fails.
fn copied(alloc: Global, bytes: &[u8]) -> Result<Vec<u8>, AllocError>
    ensures { IfOk result (λ copy. copy.items ≡ bytes.now) }
{
    let mut copy = Vec::with_capacity(alloc, bytes.len())?;
    copy.extend_from_slice(bytes).unwrap();
    Ok(copy)
}
