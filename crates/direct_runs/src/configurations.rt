// A configuration as it is judged. The rules of its text stand in tests/, over the built program.
use cos_config::{Config, MachineKind, PortConfig, PortKind, Sockets, judge};

const TEXT: &[u8] =
    b"[machine]\nkind = \"rv32i\"\nimage = \"a.bin\"\nram = 4096\nquantum = 100\nunits = 1000\n[[port]]\nkind = \"uart\"\nbase = 0x10000000\nsize = 4096\nline = 1\nlines = \"posted\"\nsocket = \"u.sock\"\n";

/// Whether a port has its settings, and the defaults of the others.
fn has_settings(port: &PortConfig) -> bool {
    port.kind == PortKind::Uart
        && port.gap == 1
        && !port.answered_lines
        && !port.posted_stores
        && port.caps.base
        && port.input.is_none()
        && port.socket.is_some()
}

/// Whether these are the settings of the text.
fn is_of_the_text(config: &Config) -> bool {
    match config.ports.as_slice() {
        [port] => {
            config.kind == MachineKind::Rv
                && config.ram == 4096
                && config.units == 1000
                && has_settings(port)
        }
        _ => false,
    }
}

#[test]
fn a_port_has_its_settings_and_defaults(rt: HostRuntime) {
    match judge(rt.alloc(), TEXT, Sockets::All) {
        Ok(config) => assert!(rt; is_of_the_text(&config)),
        Err(_) => assert!(rt; false),
    }
}
