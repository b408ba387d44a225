// What is written on the output and told on the errors.
ghost use Rattle.std.specs.Prelude.{◌≡◌};
ghost use Rattle.etcd_proxy.specs.Run.{Prints, Tells};

use outside::{Failed, Sink, write_whole};

/// How the command is used.
pub(crate) const USAGE: &[u8] =
    b"usage: etcd_proxy replay [--generate N] or audit or store ADDRESS or grpc-proxy start OPTIONS\n";

/// Writes a text to the output.
pub(crate) fn print<K: Sink, E: Sink>(output: &mut K, errors: &mut E, text: &[u8]) -> u8
    ensures { Prints (K.written output.old) (K.written output.new) (K.faults output.old) (K.faults output.new)
        (E.written errors.old) (E.written errors.new) (E.faults errors.old) (E.faults errors.new) text.now result }
{
    match write_whole(output, text) {
        Ok(()) => 0,
        Err(Failed) => {
            tell(errors, b"write fault\n");
            4
        }
    }
}

/// Writes a text to the errors. Where that fails, nothing else is done about it.
pub(crate) fn tell<E: Sink>(errors: &mut E, text: &[u8])
    ensures { Tells (E.written errors.old) (E.written errors.new) (E.faults errors.old) (E.faults errors.new) text.now }
{
    let _ = write_whole(errors, text);
}
