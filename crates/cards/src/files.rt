// What a name leads to, as the system tells it.
use crate::names;
use crate::refusal::{A_DIRECTORY, Why};
use crate::text::Text;
use std::fs::{DirBuilder, Metadata, OpenFile, Permissions};
use std::io::Result;
use std::os::unix::fs::{DirBuilderExt, MetadataExt, PermissionsExt};
use std::rt::Files;

// Special is what is neither of the others, as a pipe.
#[derive(Clone, Copy, PartialEq, Eq)]
pub(crate) enum Kind {
    Regular,
    Directory,
    Link,
    Special,
}

impl Kind {
    // Why a file is not written over that is not a regular one.
    pub(crate) fn kept(self) -> Option<Why> {
        match self {
            Kind::Regular => None,
            Kind::Directory => Some(Why::System(A_DIRECTORY)),
            Kind::Link => Some(Why::Link),
            Kind::Special => Some(Why::Special),
        }
    }
}

#[derive(Clone, Copy)]
pub(crate) struct Status {
    pub kind: Kind,
    pub device: u64,
    pub inode: u64,
    pub mode: u32,
    pub owner: u32,
    pub group: u32,
    pub links: u64,
    pub empty: bool,
}

impl From<&Metadata> for Status {
    fn from(s: &Metadata) -> Status {
        Status {
            kind: kind_of(s.mode()),
            device: s.dev(),
            inode: s.ino(),
            mode: s.mode(),
            owner: s.uid(),
            group: s.gid(),
            links: s.nlink(),
            empty: s.len() == 0,
        }
    }
}

fn kind_of(mode: u32) -> Kind {
    match mode & 0o170000 {
        0o100000 => Kind::Regular,
        0o040000 => Kind::Directory,
        0o120000 => Kind::Link,
        _ => Kind::Special,
    }
}

// What a name leads to; a symbolic link itself, if it is not to be followed.
pub(crate) fn led_to(rt: &impl Files, name: Text, follow: bool) -> Result<Status> {
    let path = names::path(&name)?;
    let told = if follow {
        rt.metadata(path)?
    } else {
        rt.symlink_metadata(path)?
    };
    Ok(Status::from(&told))
}

// Makes a folder that nobody else can use. An error, as where the name is taken, leaves none.
pub(crate) fn make_private(rt: &impl Files, name: Text) -> Result<()> {
    let path = names::path(&name)?;
    DirBuilder::new().mode(PRIVATE).create(rt, path)?;
    keep_private(names::open_read(rt, name));
    Ok(())
}

// The rights of a folder that nobody else can use.
const PRIVATE: u32 = 0o700;

// The umask may have left too little.
fn keep_private<F: OpenFile + Drop>(folder: Result<F>) {
    if let Ok(f) = folder {
        let _ = f.set_permissions(Permissions::from_mode(PRIVATE));
    }
}
