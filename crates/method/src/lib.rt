// The 23 methods and their numbers on the wire: the type of a message.
#![tactic(auto)]

ghost use Rattle.std.specs.Prelude.{◌≡◌};
ghost use Rattle.method.specs.Methods.{request_number, reply_number, of_request, of_reply, found_method};

// A method of the file system, in document 01's order, with its request number. Its reply number is `REPLY_OFFSET` above.
#[derive(Clone, Copy, Debug, PartialEq, Eq)]
pub enum Method {
    Access = 0x01,
    Getattr = 0x02,
    Readlink = 0x03,
    Symlink = 0x04,
    Link = 0x05,
    Rename = 0x06,
    Chmod = 0x07,
    Chown = 0x08,
    Truncate = 0x09,
    Fsync = 0x0a,
    Open = 0x0b,
    Mknod = 0x0c,
    Create = 0x0d,
    Release = 0x0e,
    Unlink = 0x0f,
    Read = 0x10,
    Write = 0x11,
    Mkdir = 0x12,
    Readdir = 0x13,
    Rmdir = 0x14,
    Statfs = 0x15,
    Utimens = 0x16,
    Getcreds = 0x17,
}

impl Method {
    // Every method, in the order of the request numbers.
    const ALL: [Method; 23] = [
        Method::Access,
        Method::Getattr,
        Method::Readlink,
        Method::Symlink,
        Method::Link,
        Method::Rename,
        Method::Chmod,
        Method::Chown,
        Method::Truncate,
        Method::Fsync,
        Method::Open,
        Method::Mknod,
        Method::Create,
        Method::Release,
        Method::Unlink,
        Method::Read,
        Method::Write,
        Method::Mkdir,
        Method::Readdir,
        Method::Rmdir,
        Method::Statfs,
        Method::Utimens,
        Method::Getcreds,
    ];

    // The least request number: the one of the method at place 0 of `ALL`.
    const FIRST_REQUEST: u8 = Method::Access as u8;

    // What a reply number is above the request number.
    pub const REPLY_OFFSET: u8 = 0x80;

    // The unknown response, which answers a request of no method.
    pub const UNKNOWN_RESPONSE: u8 = 0x80;

    // The number of the method's request.
    pub fn request_number(self) -> u8
        ensures { result ≡ request_number self }
    {
        self as u8
    }

    // The number of the method's reply.
    pub fn reply_number(self) -> u8
        ensures { result ≡ reply_number self }
    {
        self.request_number() + Method::REPLY_OFFSET
    }

    // The method whose request has this number, if there is one.
    pub fn of_request(number: u8) -> Option<Method>
        ensures { found_method result ≡ of_request number }
    {
        let place = number.checked_sub(Method::FIRST_REQUEST)?;
        Method::ALL.get(place as usize).copied()
    }

    // The method whose reply has this number, if there is one.
    pub fn of_reply(number: u8) -> Option<Method>
        ensures { found_method result ≡ of_reply number }
    {
        Method::of_request(number.checked_sub(Method::REPLY_OFFSET)?)
    }
}

// Each method's request number, and its reply number, where code matches on a type.
impl Method {
    pub const ACCESS: u8 = Method::Access as u8;

    pub const GETATTR: u8 = Method::Getattr as u8;

    pub const READLINK: u8 = Method::Readlink as u8;

    pub const SYMLINK: u8 = Method::Symlink as u8;

    pub const LINK: u8 = Method::Link as u8;

    pub const RENAME: u8 = Method::Rename as u8;

    pub const CHMOD: u8 = Method::Chmod as u8;

    pub const CHOWN: u8 = Method::Chown as u8;

    pub const TRUNCATE: u8 = Method::Truncate as u8;

    pub const FSYNC: u8 = Method::Fsync as u8;

    pub const OPEN: u8 = Method::Open as u8;

    pub const MKNOD: u8 = Method::Mknod as u8;

    pub const CREATE: u8 = Method::Create as u8;

    pub const RELEASE: u8 = Method::Release as u8;

    pub const UNLINK: u8 = Method::Unlink as u8;

    pub const READ: u8 = Method::Read as u8;

    pub const WRITE: u8 = Method::Write as u8;

    pub const MKDIR: u8 = Method::Mkdir as u8;

    pub const READDIR: u8 = Method::Readdir as u8;

    pub const RMDIR: u8 = Method::Rmdir as u8;

    pub const STATFS: u8 = Method::Statfs as u8;

    pub const UTIMENS: u8 = Method::Utimens as u8;

    pub const GETCREDS: u8 = Method::Getcreds as u8;

    pub const ACCESS_REPLY: u8 = Method::ACCESS + Method::REPLY_OFFSET;

    pub const GETATTR_REPLY: u8 = Method::GETATTR + Method::REPLY_OFFSET;

    pub const READLINK_REPLY: u8 = Method::READLINK + Method::REPLY_OFFSET;

    pub const SYMLINK_REPLY: u8 = Method::SYMLINK + Method::REPLY_OFFSET;

    pub const LINK_REPLY: u8 = Method::LINK + Method::REPLY_OFFSET;

    pub const RENAME_REPLY: u8 = Method::RENAME + Method::REPLY_OFFSET;

    pub const CHMOD_REPLY: u8 = Method::CHMOD + Method::REPLY_OFFSET;

    pub const CHOWN_REPLY: u8 = Method::CHOWN + Method::REPLY_OFFSET;

    pub const TRUNCATE_REPLY: u8 = Method::TRUNCATE + Method::REPLY_OFFSET;

    pub const FSYNC_REPLY: u8 = Method::FSYNC + Method::REPLY_OFFSET;

    pub const OPEN_REPLY: u8 = Method::OPEN + Method::REPLY_OFFSET;

    pub const MKNOD_REPLY: u8 = Method::MKNOD + Method::REPLY_OFFSET;

    pub const CREATE_REPLY: u8 = Method::CREATE + Method::REPLY_OFFSET;

    pub const RELEASE_REPLY: u8 = Method::RELEASE + Method::REPLY_OFFSET;

    pub const UNLINK_REPLY: u8 = Method::UNLINK + Method::REPLY_OFFSET;

    pub const READ_REPLY: u8 = Method::READ + Method::REPLY_OFFSET;

    pub const WRITE_REPLY: u8 = Method::WRITE + Method::REPLY_OFFSET;

    pub const MKDIR_REPLY: u8 = Method::MKDIR + Method::REPLY_OFFSET;

    pub const READDIR_REPLY: u8 = Method::READDIR + Method::REPLY_OFFSET;

    pub const RMDIR_REPLY: u8 = Method::RMDIR + Method::REPLY_OFFSET;

    pub const STATFS_REPLY: u8 = Method::STATFS + Method::REPLY_OFFSET;

    pub const UTIMENS_REPLY: u8 = Method::UTIMENS + Method::REPLY_OFFSET;

    pub const GETCREDS_REPLY: u8 = Method::GETCREDS + Method::REPLY_OFFSET;
}
