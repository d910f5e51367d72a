// Requests of processes as text.
ghost use Rattle.std.specs.Prelude.{◌≡◌, false};

use core_eval::Request;
use std::alloc::Global;
use term_core::{Output, WriteFault, write_all, write_term};
use test_support::write_named;

// Writes a call, or the reason of an end.
fn write_request(request: &Request, sink: &mut Output<Vec<u8>>) -> Result<(), WriteFault>
    requires { sink.old.has_failed ≡ false }
{
    match request {
        Request::Call(kind, arguments) => write_named(kind.function_name(), arguments, sink),
        Request::Receive { .. } => write_all(sink, b"receives"),
        Request::End(reason) => write_term(reason, sink),
        Request::Runaway => write_all(sink, b"runs away"),
    }
}

// A call, or the reason of an end, as text.
pub(crate) fn text_of(alloc: Global, request: &Request) -> Result<Vec<u8>, WriteFault> {
    let mut sink = Output::new(Vec::new(alloc));
    write_request(request, &mut sink)?;
    Ok(sink.writer)
}
