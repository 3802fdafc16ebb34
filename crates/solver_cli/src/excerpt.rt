// The line of a text that was refused, for an explanation: a source that keeps a copy of the last bytes that it gave.
ghost use Rattle.std.specs.Prelude.{◌≡◌, ◌≢◌, ◌≤◌, None, length};
ghost use Rattle.host_io.specs.Beside.{beside_role};
ghost use Rattle.host_io.specs.Files.{IsInput, IsInput-prop};

use host_io::{Failed, Host, Role, Source};

// As many as a reader asks for at once.
const BLOCK: usize = 16384;

/// The last bytes that were read of a text, and the number of lines before them. It keeps none where they aren't wanted.
#[derive(Drop)]
pub struct Excerpt {
    is_wanted: bool,
    looks_binary: bool,
    lines: u64,
    len: usize,
    block: [u8; BLOCK],
}

impl Excerpt {
    /// That of no text.
    pub fn new(is_wanted: bool) -> Excerpt {
        Excerpt {
            is_wanted,
            looks_binary: false,
            lines: 0,
            len: 0,
            block: [0; BLOCK],
        }
    }

    /// From here on it is that of another text.
    pub fn begin(&mut self) {
        self.looks_binary = false;
        self.lines = 0;
        self.len = 0;
    }

    /// Whether the last bytes of a text are to be kept.
    pub fn is_wanted(&self) -> bool {
        self.is_wanted
    }

    /// Whether a byte that was looked at was 0, as in each binary proof and in no text.
    pub fn looks_binary(&self) -> bool {
        self.looks_binary
    }

    /// What it has of the line of this number, which may have begun before it, or go on behind it.
    pub fn line(&self, number: u64) -> &[u8] {
        let mut rest = self.bytes();
        let before = number.saturating_sub(self.lines).saturating_sub(1);
        for _ in 0..before.min(BLOCK as u64) {
            rest = behind_line(rest);
        }
        &rest[..line_length(rest)]
    }

    fn bytes(&self) -> &[u8] {
        &self.block[..self.len.min(BLOCK)]
    }

    /// Looks whether a byte of these is 0.
    pub fn look(&mut self, bytes: &[u8]) {
        if has_zero(bytes) {
            self.looks_binary = true;
        }
    }

    /// Takes bytes that were read.
    pub fn pass(&mut self, bytes: &[u8]) {
        if !self.is_wanted || bytes.is_empty() {
            return;
        }
        let count = bytes.len().min(BLOCK);
        let start = bytes.len() - count;
        let passed = line_ends(self.bytes()).wrapping_add(line_ends(&bytes[..start]));
        self.lines = self.lines.wrapping_add(passed);
        self.block[..count].copy_from_slice(&bytes[start..]);
        self.len = count;
    }
}

/// A host, lent for one role that is read, with the excerpt of what is read.
#[derive(Drop)]
pub struct NotedSource<'a, H: Host> {
    host: &'a mut H,
    role: Role,
    excerpt: &'a mut Excerpt,
    ghost input: { IsInput role } by { IsInput-prop role },
    ghost opened: { (H.channel host.now role).name ≢ None },
}

impl<'a, H: Host> NotedSource<'a, H> {
    /// Lends the host for one role that was opened. The excerpt is that of what is read from here on.
    pub fn new(host: &'a mut H, role: Role, excerpt: &'a mut Excerpt) -> Self
        requires input { IsInput role }
        requires opened { (H.channel host.old role).name ≢ None }
        ensures same_reference { result.host.ghost_name ≡ host.entry.ghost_name }
        ensures same_value { result.host.now ≡ host.old }
        ensures role { result.role ≡ role }
    {
        excerpt.begin();
        NotedSource {
            host,
            role,
            excerpt,
        }
    }
}

impl<H: Host> Source for NotedSource<'_, H> {
    ghost tells = { H.tells };

    ghost channel = { λ s. H.channel s.host.now s.role };

    ghost beside = { λ s. beside_role s.host.ghost_name s.role None (H.channel s.host.now) (H.files s.host.now) };

    fn read(&mut self, buf: &mut [u8]) -> Result<usize, Failed> {
        let read = self.host.read(self.role, &mut *buf)?;
        self.excerpt.pass(&buf[..read]);
        Ok(read)
    }
}

/// How many lines end among these bytes.
pub fn line_ends(bytes: &[u8]) -> u64 {
    let mut ends: u64 = 0;
    for byte in bytes {
        if *byte == b'\n' {
            ends = ends.wrapping_add(1);
        }
    }
    ends
}

fn has_zero(bytes: &[u8]) -> bool {
    for byte in bytes {
        if *byte == 0 {
            return true;
        }
    }
    false
}

// How many bytes stand before the first line feed.
fn line_length(bytes: &[u8]) -> usize
    ensures { result ≤ length bytes.now }
{
    for place in 0..bytes.len() {
        if bytes[place] == b'\n' {
            return place;
        }
    }
    bytes.len()
}

fn behind_line(bytes: &[u8]) -> &[u8] {
    let end = line_length(bytes) + 1;
    &bytes[bytes.len().min(end)..]
}
