// Messages, for C: reading into sixteen numbers, writing, and writing again.
ghost use Rattle.exports.specs.Envelopes.{ReadsForC, given_for_c, WritesForC, RewritesForC};

use exports::envelopes::FIELDS;

#[unsafe(no_mangle)]
pub extern "C" fn morlewen_read(bytes: &[u8], fields: &mut [u64; FIELDS]) -> u64
    ensures { ReadsForC bytes.now fields.old result fields.new }
{
    exports::envelopes::morlewen_read(bytes, fields)
}

#[unsafe(no_mangle)]
pub extern "C" fn morlewen_write(
    message_type: u16,
    version: u8,
    flags: u8,
    number: u32,
    time: u32,
    addressed: u8,
    ttl: u16,
    qos: u16,
    source: &[u8],
    destination: &[u8],
    body: &[u8],
    integrity: u32,
    buffer: &mut [u8],
) -> u64
    ensures { WritesForC (given_for_c message_type version flags number time addressed ttl qos source.now destination.now body.now integrity) buffer.old result buffer.new }
{
    exports::envelopes::morlewen_write(
        message_type,
        version,
        flags,
        number,
        time,
        addressed,
        ttl,
        qos,
        source,
        destination,
        body,
        integrity,
        buffer,
    )
}

#[unsafe(no_mangle)]
pub extern "C" fn morlewen_rewrite(bytes: &[u8], buffer: &mut [u8]) -> u64
    ensures { RewritesForC bytes.now buffer.old result buffer.new }
{
    exports::envelopes::morlewen_rewrite(bytes, buffer)
}
