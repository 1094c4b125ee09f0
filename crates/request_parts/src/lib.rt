// The texts and the data of a request that was read, each as a part of the message itself.
#![tactic(auto, unfolding(layout::specs::Parts::fields_of, method::specs::Methods::of_request))]

ghost use Rattle.std.specs.Prelude.{◌≡◌};
ghost use Rattle.layout.specs.Table.{request as request_side};
ghost use Rattle.layout.specs.Parts.{part_named};
ghost use Rattle.wire.specs.Runs.{Shows};
ghost use Rattle.request_reader.specs.Answers.{answer_of};
ghost use Rattle.request_parts.specs.Parts.{part_in};

use request_reader::{Request, RequestAnswer};
use wire::Run;

// The request that was read; none where the message was refused, or has a type that is no method's.
fn request_of(answer: RequestAnswer) -> Option<Request>
    ensures { (n : _) → part_in n result ≡ part_named request_side n (answer_of answer) }
{
    match answer {
        RequestAnswer::Known { request, .. } => Some(request),
        _ => None,
    }
}

// The bytes of the path of a request, as a part of the message that was answered so. Here and below a message without that field, and one that was
// refused, gives the empty part.
pub fn path<'a>(m: &'a [u8], answer: RequestAnswer) -> &'a [u8]
    ensures { Shows m.entry (part_named request_side "path" (answer_of answer)) result }
{
    match request_of(answer) {
        Some(
            Request::Access { path, .. }
            | Request::Getattr { path }
            | Request::Readlink { path }
            | Request::Chmod { path, .. }
            | Request::Chown { path, .. }
            | Request::Truncate { path, .. }
            | Request::Fsync { path, .. }
            | Request::Open { path, .. }
            | Request::Mknod { path, .. }
            | Request::Create { path, .. }
            | Request::Release { path, .. }
            | Request::Unlink { path }
            | Request::Read { path, .. }
            | Request::Write { path, .. }
            | Request::Mkdir { path, .. }
            | Request::Readdir { path }
            | Request::Rmdir { path }
            | Request::Statfs { path }
            | Request::Utimens { path, .. },
        ) => wire::bytes_of(m, path),
        _ => wire::bytes_of(m, Run::EMPTY),
    }
}

// The bytes of the target of a symlink request.
pub fn target<'a>(m: &'a [u8], answer: RequestAnswer) -> &'a [u8]
    ensures { Shows m.entry (part_named request_side "target" (answer_of answer)) result }
{
    match request_of(answer) {
        Some(Request::Symlink { target, .. }) => wire::bytes_of(m, target),
        _ => wire::bytes_of(m, Run::EMPTY),
    }
}

// The bytes of the linkpath of a symlink request.
pub fn linkpath<'a>(m: &'a [u8], answer: RequestAnswer) -> &'a [u8]
    ensures { Shows m.entry (part_named request_side "linkpath" (answer_of answer)) result }
{
    match request_of(answer) {
        Some(Request::Symlink { linkpath, .. }) => wire::bytes_of(m, linkpath),
        _ => wire::bytes_of(m, Run::EMPTY),
    }
}

// The bytes of the old_path of a link or rename request.
pub fn old_path<'a>(m: &'a [u8], answer: RequestAnswer) -> &'a [u8]
    ensures { Shows m.entry (part_named request_side "old_path" (answer_of answer)) result }
{
    match request_of(answer) {
        Some(Request::Link { old_path, .. } | Request::Rename { old_path, .. }) => wire::bytes_of(
            m, old_path,
        ),
        _ => wire::bytes_of(m, Run::EMPTY),
    }
}

// The bytes of the new_path of a link or rename request.
pub fn new_path<'a>(m: &'a [u8], answer: RequestAnswer) -> &'a [u8]
    ensures { Shows m.entry (part_named request_side "new_path" (answer_of answer)) result }
{
    match request_of(answer) {
        Some(Request::Link { new_path, .. } | Request::Rename { new_path, .. }) => wire::bytes_of(
            m, new_path,
        ),
        _ => wire::bytes_of(m, Run::EMPTY),
    }
}

// The bytes of the data of a write request.
pub fn data<'a>(m: &'a [u8], answer: RequestAnswer) -> &'a [u8]
    ensures { Shows m.entry (part_named request_side "data" (answer_of answer)) result }
{
    match request_of(answer) {
        Some(Request::Write { data, .. }) => wire::bytes_of(m, data),
        _ => wire::bytes_of(m, Run::EMPTY),
    }
}
