// Frames of docs/RULES.md, "Frames". The first holds the public keystream, each byte turned to have its high bit first.
// The two of one file, under another key, are worked out from the rules bit by bit.
use crate::text::{say, say_bits, say_bytes, say_number};
use answer::Answer;
use port::{Field, Port};

const KEY: [u8; 16] = [0, 1, 2, 3, 4, 5, 6, 7, 8, 9, 10, 11, 12, 13, 14, 15];

const FIRST_IV: [u8; 16] = [0; 16];

const SECOND_IV: [u8; 16] = [15, 14, 13, 12, 11, 10, 9, 8, 7, 6, 5, 4, 3, 2, 1, 0];

// Ends a line with a list of bytes.
fn end(text: &[u8], bytes: &[u8]) {
    say(text);
    say_bytes(bytes);
    say(b"\n");
}

// A frame of key, IV and record all zero behind a file.
fn append_zeros(file: &[u8], frame: &mut [u8]) -> Answer {
    frames::append(&[0; 128], &[0; 64], &[0; 128], file, frame)
}

fn print_public() {
    let mut frame = [0u8; 26];
    let Ok(()) = append_zeros(&[], &mut frame) else {
        say(b"refused\n");
        return;
    };
    end(
        b"rules, Frames, frame of key, IV and record all zero, keystream the public vector above:",
        &frame,
    );
}

// Bit i of a list of bytes, the high bit of each first.
fn bit_of(bytes: &[u8], i: usize) -> u8 {
    let byte = answer::get_or(bytes, i / 8, 0);
    (byte >> ((7 - i % 8) as u32)) % 2
}

fn put_bits(bytes: &[u8], bits: &mut [u8]) {
    for (i, bit) in bits.iter_mut().enumerate() {
        *bit = bit_of(bytes, i);
    }
}

fn say_field(name: &[u8], value: u32) {
    say(name);
    say_number(value as usize);
}

fn say_port(port: Port) {
    say_field(b" port ", port.number());
    say_field(b", admin up ", port.admin_up());
    say_field(b", link up ", port.link_up());
    say_field(b", errors ", port.errors());
    say_field(b", load ", port.load());
}

fn print_bits(port: Port, record: &mut [u8]) {
    let Ok(()) = port::bits(port, record) else {
        say(b"refused\n");
        return;
    };
    say(b"rules, Frames,");
    say_port(port);
    say(b": ");
    say_bits(record);
    say(b"\n");
}

fn append(record: &[u8], iv: &[u8], file: &[u8], frame: &mut [u8]) -> Answer {
    let mut key_bits = [0u8; 128];
    put_bits(&KEY, &mut key_bits);
    let mut iv_bits = [0u8; 128];
    put_bits(iv, &mut iv_bits);
    frames::append(&key_bits, record, &iv_bits, file, frame)
}

// A frame behind a file.
fn print_frame(record: &[u8], iv: &[u8], file: &[u8], frame: &mut [u8]) {
    let Ok(()) = append(record, iv, file, frame) else {
        say(b"refused\n");
        return;
    };
    say(b"rules, Frames, its frame, key");
    say_bytes(&KEY);
    say(b", IV");
    say_bytes(iv);
    end(b":", frame);
}

// Prints the bits of a port's fields, and their frame.
fn print_port(made: Result<Port, Field>, iv: &[u8], file: &[u8], frame: &mut [u8]) {
    let Ok(port) = made else {
        say(b"refused\n");
        return;
    };
    let mut record = [0u8; 64];
    print_bits(port, &mut record);
    print_frame(&record, iv, file, frame);
}

// Two copies into parts of the file would leave its length unknown to who lends the file on.
fn join(first: &[u8], second: &[u8], file: &mut [u8]) {
    for (i, byte) in file.iter_mut().enumerate() {
        *byte = if i < first.len() {
            first[i]
        } else {
            answer::get_or(second, i - first.len(), 0)
        };
    }
}

fn say_record(bits: &[u8]) {
    match port::fields(bits) {
        Ok(port) => say_port(port),
        Err(_) => say(b" refused"),
    }
}

fn read(file: &[u8], records: &mut [u8]) -> Answer {
    let mut key_bits = [0u8; 128];
    put_bits(&KEY, &mut key_bits);
    frames::read(&key_bits, file, records)
}

fn print_read(file: &[u8]) {
    let mut records = [0u8; 128];
    let Ok(()) = read(file, &mut records) else {
        say(b"refused\n");
        return;
    };
    say(b"rules, Frames, both frames read:");
    say_record(&records[0..64]);
    say(b";");
    say_record(&records[64..]);
    say(b"\n");
}

fn say_answer(answer: Answer) {
    match answer {
        Ok(()) => say(b"done"),
        Err(e) => {
            say_number(u32::from(e.reason) as usize);
            say_field(b", list ", e.list);
            say(b", place ");
            say_number(e.place);
        }
    }
}

// A new frame whose IV is not above the last one's.
fn print_refusal(file: &[u8]) {
    let mut frame = [0u8; 26];
    say(b"rules, Frames, a frame with IV all zero behind both: ");
    say_answer(append_zeros(file, &mut frame));
    say(b"\n");
}

pub(crate) fn print() {
    print_public();
    let mut first = [0u8; 26];
    let largest = Port::new(65535, 1, 1, 4194303, 16777215);
    print_port(largest, &FIRST_IV, &[], &mut first);
    let mut second = [0u8; 26];
    let other = Port::new(4711, 1, 0, 70000, 5);
    print_port(other, &SECOND_IV, &first, &mut second);
    let mut file = [0u8; 52];
    join(&first, &second, &mut file);
    print_read(&file);
    print_refusal(&file);
}
