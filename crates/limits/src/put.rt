// Records, written front to back into an array.
ghost use Rattle.std.specs.Prelude.{◌≤◌};

use paper::NodeNo;

const MOST: usize = 8192;

#[derive(Drop)]
pub struct Written {
    bytes: [u8; 8192],
    len: usize,
    ghost within: { (1 ≤ len) × (len ≤ 8192) },
}

impl Written {
    // The format record alone.
    pub fn new() -> Written {
        let mut bytes = [0; 8192];
        bytes[0] = 0x01;
        bytes[1] = 0x01;
        Written { bytes, len: 2 }
    }

    pub fn as_slice(&self) -> &[u8] {
        &self.bytes[..self.len]
    }

    // Where the array is full nothing is written.
    pub fn push(&mut self, byte: u8) {
        if self.len < MOST {
            self.bytes[self.len] = byte;
            self.len += 1;
        }
    }

    fn extend(&mut self, bytes: &[u8]) {
        for &byte in bytes {
            self.push(byte);
        }
    }

    fn number(&mut self, n: u16) {
        self.extend(&n.to_le_bytes());
    }

    fn reference(&mut self, node: NodeNo) {
        self.number(node.0);
    }

    pub fn end(&mut self, nodes: u16) {
        self.push(0x7f);
        self.number(nodes);
    }

    // A name of 24 bytes.
    fn name(&mut self, first: u8, second: u8) {
        self.extend(&[0x02, first, second]);
        self.extend(b"cdefghijklmnopqrstuvwx");
    }

    // Names that ascend, the first of them with a given first byte.
    pub fn names(&mut self, first: u8, count: u8)
        requires { first ≤ 122 }
    {
        for k in 0..count {
            self.name(first + k / 16, b'b' + k % 16);
        }
    }

    pub fn call(&mut self) {
        self.extend(b"\x1b\0\0");
    }

    pub fn calls(&mut self, count: u16) {
        for _ in 0..count {
            self.call();
        }
    }

    // Tps of the names from 0 on.
    pub fn tps(&mut self, count: u8) {
        for k in 0..count {
            self.extend(&[0x1a, 0, k]);
        }
    }

    fn pair(&mut self, kind: u8, left: NodeNo, right: NodeNo) {
        self.push(kind);
        self.reference(left);
        self.reference(right);
    }

    // Ands, the first over the nodes 0 and 1, the next over 2 and 3, and so on.
    pub fn ands(&mut self, count: u16)
        requires { count ≤ 512 }
    {
        for k in 0..count {
            self.pair(0x10, NodeNo(2 * k), NodeNo(2 * k + 1));
        }
    }

    pub fn since(&mut self, left: NodeNo, right: NodeNo) {
        self.pair(0x15, left, right);
        self.number(0);
    }

    // The nodes above bottom, up to top: each is a head and a reference to the node before it.
    pub fn stack(&mut self, head: &[u8], bottom: u16, top: u16) {
        for inner in bottom..top {
            self.extend(head);
            self.reference(NodeNo(inner));
        }
    }
}
