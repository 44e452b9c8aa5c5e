ghost use Rattle.std.specs.Prelude.{◌≡◌, ◌∷◌, [], IfOk, IsTrue, OnErr, OnOk, codes, string_bytes};
ghost use Rattle.std.specs.Io.Buffered.{reader_buffer, reader_inner};
ghost use Rattle.command_lines.specs.CommandLine.{option_text};
ghost use Rattle.commands.specs.Options.{IsServerOf, IsTimeout, number_or};
ghost use Rattle.commands.specs.Words.{IsCheckedBy, has_prefix, has_timeout, names_server};
ghost use Rattle.commands.specs.Words.{server_words};

use crate::again::{read_again, write_again};
use crate::error::CommandError;
use crate::options::{Options, invalid_value, is_address, limit_of, number_in, text_for};
use http_core::{Host, Prefix};
use remote::Stream;
use std::alloc::Global;
use std::io;
use std::io::{BufRead, BufReader, ErrorKind};
use std::net::{Net, SocketAddr, TcpStream, ToSocketAddrs};
use std::time::Duration;

/// How many seconds a server may be silent where the words don't say it.
const SILENT: u64 = 60;

/// A server, and what the words of a command say of it.
#[derive(Drop)]
pub struct ServerOptions {
    pub address: String,
    pub host: Host<Global>,
    pub prefix: Prefix<Global>,
    /// How long it may be silent; none: for ever.
    pub timeout: Option<Duration>,
}

fn read_host<M: Options>(alloc: Global, options: &M) -> Result<Host<Global>, CommandError>
    ensures host { IfOk result
        (λ host. host ≡ option_text (M.rows options.now) (codes "server")) }
    ensures checked { IsCheckedBy (names_server (M.rows options.now) ∷ []) result }
{
    let address = text_for(options, "server");
    let host = Host::read(alloc, address)?;
    match host {
        Some(host) if is_address(address) => Ok(host),
        _ => Err(invalid_value(alloc, "server", "HOST:PORT", address)?),
    }
}

/// How long the server may be silent.
fn read_timeout<M: Options>(alloc: Global, options: &M) -> Result<Option<Duration>, CommandError>
    ensures timeout { IfOk result
        (IsTimeout (number_or 60 (M.rows options.now) (codes "timeout"))) }
    ensures checked { IsCheckedBy (has_timeout (M.rows options.now) ∷ []) result }
{
    if options.text("timeout").is_none() {
        return Ok(limit_of(SILENT));
    }
    let text = text_for(options, "timeout");
    match number_in(text) {
        Some(seconds) => Ok(limit_of(seconds)),
        None => Err(invalid_value(alloc, "timeout", "a number of seconds", text)?),
    }
}

/// The prefix that the words give.
pub(crate) fn read_prefix<M: Options>(
    alloc: Global,
    options: &M,
) -> Result<Prefix<Global>, CommandError>
    ensures prefix { IfOk result
        (λ prefix. prefix ≡ option_text (M.rows options.now) (codes "prefix")) }
    ensures checked { IsCheckedBy (has_prefix (M.rows options.now) ∷ []) result }
{
    let text = text_for(options, "prefix");
    match Prefix::read(alloc, text.as_bytes())? {
        Some(prefix) => Ok(prefix),
        None => Err(invalid_value(alloc, "prefix", "a path like /team/main", text)?),
    }
}

/// The server that the words name, with the timeout and the prefix that they give.
pub fn read_server<M: Options>(alloc: Global, options: &M) -> Result<ServerOptions, CommandError>
    ensures server { IfOk result (IsServerOf (M.rows options.now)) }
    ensures checked { IsCheckedBy (server_words (M.rows options.now)) result }
{
    let host = read_host(alloc, options)?;
    let timeout = read_timeout(alloc, options)?;
    let prefix = read_prefix(alloc, options)?;
    Ok(ServerOptions {
        address: String::from_str(alloc, text_for(options, "server"))?,
        host,
        prefix,
        timeout,
    })
}

/// An open connection to one of the addresses that the server's name has.
fn connect<R: Net<Stream = TcpStream>>(
    rt: &R,
    server: &str,
    timeout: Option<Duration>,
) -> io::Result<TcpStream> {
    let mut fault = io::Error::from(ErrorKind::InvalidInput);
    for address in server.to_socket_addrs(rt)? {
        match connect_to(rt, address, timeout) {
            Ok(stream) => return Ok(stream),
            Err(last) => fault = last,
        }
    }
    Err(fault)
}

fn connect_to<R: Net<Stream = TcpStream>>(
    rt: &R,
    address: SocketAddr,
    timeout: Option<Duration>,
) -> io::Result<TcpStream> {
    let stream = match timeout {
        Some(timeout) => rt.connect_timeout(address, timeout)?,
        None => rt.connect(address)?,
    };
    stream.set_nodelay(true)?;
    stream.set_read_timeout(timeout)?;
    stream.set_write_timeout(timeout)?;
    Ok(stream)
}

/// Puts another stream in the place of the reader's. What was read ahead of that is dropped.
fn replace(reader: &mut BufReader<TcpStream>, stream: TcpStream)
    ensures stream { reader_inner reader.new ≡ stream }
    ensures empty { reader_buffer reader.new ≡ [] }
{
    *reader.get_mut() = stream;
    let ahead = reader.buffer().len();
    reader.consume(ahead);
}

/// Whether the stream is open and nothing was read ahead of it: what comes before a request is no
/// part of its reply.
fn is_quiet(reader: &BufReader<TcpStream>) -> bool
    ensures { IsTrue result → reader_buffer reader.now ≡ [] }
{
    reader.buffer().is_empty() && reader.get_ref().is_open()
}

/// A connection to a server, which is opened anew where the server has closed it. It reads ahead,
/// so that a reply that is taken in small pieces costs few calls of the system.
#[derive(Drop)]
pub struct Connection<'r, R> {
    rt: &'r R,
    address: String,
    timeout: Option<Duration>,
    reader: BufReader<TcpStream>,
}

impl<'r, R: Net<Stream = TcpStream>> Connection<'r, R> {
    /// An open connection to the server.
    pub(crate) fn open(
        alloc: Global,
        rt: &'r R,
        server: &ServerOptions,
    ) -> io::Result<Connection<'r, R>>
        ensures address { IfOk result
            (λ c. string_bytes c.address ≡ string_bytes server.now.address) }
        ensures timeout { IfOk result (λ c. c.timeout ≡ server.now.timeout) }
    {
        let address = String::from_str(alloc, server.address.as_str())?;
        let stream = connect(rt, server.address.as_str(), server.timeout)?;
        Ok(Connection {
            rt,
            address,
            timeout: server.timeout,
            reader: BufReader::new(alloc, stream)?,
        })
    }
}

impl<R: Net<Stream = TcpStream>> Stream for Connection<'_, R> {
    ghost use Rattle.commands.specs.World.{renewable_flow};
    ghost use Rattle.remote.specs.Flow.{IsOpenedAnew, StaysClosed};

    ghost flow = { λ _. renewable_flow };

    fn receive(&mut self, buf: &mut [u8]) -> io::Result<usize> {
        read_again(&mut self.reader, buf)
    }

    fn send(&mut self, buf: &[u8]) -> io::Result<usize> {
        let mut stream = self.reader.get_ref();
        write_again(&mut stream, buf)
    }

    fn is_open(&self) -> bool
        ensures quiet { IsTrue result → reader_buffer self.now.reader ≡ [] }
    {
        is_quiet(&self.reader)
    }

    fn is_renewable(&self) -> bool {
        true
    }

    fn renew(&mut self) -> io::Result<()>
        ensures opened { OnOk result (IsOpenedAnew renewable_flow renewable_flow) }
        ensures err { OnErr result (StaysClosed renewable_flow renewable_flow) }
        ensures empty { OnOk result (reader_buffer self.new.reader ≡ []) }
    {
        let stream = connect(self.rt, self.address.as_str(), self.timeout)?;
        replace(&mut self.reader, stream);
        Ok(())
    }
}
