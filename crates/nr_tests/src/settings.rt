// Settings and words: that calls succeed with memory at hand, the lines of faults, and what TOML and `clap` make of plain texts.
use nr_config::{ConfigError, Given, Lasts, Settings, Task, WordsError, words};
use nr_server::settings_on;
use std::alloc::Global;
use std::test::Fail;

// A row: what is wanted, and behind it the texts that are to give it.

// Settings files. The settings are shown in the order of the struct, a fault by its line, with the reason behind
// it where there is one: a range, or the line and the column.
static FILES: [&str; 24] = [
    "127.0.0.1:6379 2 1024 2 256 67108864 300 0 5 true||# all as it is\n|nodes = 2|tcp_keepalive = 300\ntimeout = 0\nshutdown_seconds = 5",
    "[::]:1 1 2 1 1 1024 0 0 0 true|listen = \"[::]:1\"\nnodes = 1\nplaces = 2\nworkers = 1\nconnections = 1\nqueue_limit = 1024\ntcp_keepalive = 0\nshutdown_seconds = 0|listen = ['[::]:1']\nnodes = 1\nplaces = 2\nworkers = 1\nconnections = 1\nqueue_limit = 1024\ntcp_keepalive = 0\nshutdown_seconds = 0",
    "é 8 65536 16 1024 1073741824 86400 2147483 3600 true|queue_limit = 1_073_741_824\nconnections = 1024\r\nworkers = 0x10\nplaces = +65536\nnodes = 8\nlisten = 'é'\ntcp_keepalive = 86_400\ntimeout = 2147483\nshutdown_seconds = 3600",
    "a:1,unix:/b 2 1024 2 256 67108864 300 0 5 true|listen = ['a:1', 'unix:/b']",
    "127.0.0.1:6379 2 1024 2 256 67108864 300 0 5 false|revive = false",
    "settings: bad value nodes\n  from 1 to 8|nodes = 0|nodes = 9|port = 1\nnodes = 0|nodes = \"2\"|nodes = 2.0|nodes = -1|nodes = 9223372036854775807|[nodes]|nodes.x = 1",
    "settings: bad value places\n  from 2 to 65536|places = 1|places = 65537|workers = 17\nplaces = 65537",
    "settings: bad value workers\n  from 1 to 16|workers = 0|workers = 17",
    "settings: bad value connections\n  from 1 to 1024|connections = 0|connections = 1025",
    "settings: bad value queue_limit\n  from 1024 to 1073741824|queue_limit = 1023|queue_limit = 1073741825|workers = 0\nqueue_limit = 0",
    "settings: bad value listen\n  an address and a port, or a list of them|listen = 6379|listen = []|listen = ['a:1', 2]|listen = ['']|listen = ''|listen = [['a:1']]|listen = ['1','2','3','4','5','6','7','8','9','10','11','12','13','14','15','16','17']",
    "settings: bad value tcp_keepalive\n  from 0 to 86400|tcp_keepalive = -1|tcp_keepalive = 86401",
    "settings: bad value timeout\n  from 0 to 2147483|timeout = -1|timeout = 2147484|tcp_keepalive = 0\ntimeout = true\nworkers = 0",
    "settings: bad value shutdown_seconds\n  from 0 to 3600|shutdown_seconds = 3601|shutdown_seconds = '5'",
    "settings: bad value revive\n  true or false|revive = 1|revive = 'true'|revive = []|shutdown_seconds = -1\nrevive = \"no\"",
    "settings: unknown key port|port = 1|workers = 0\nport = 1\nnodes = 8",
    "settings: unknown key Nodes|Nodes = 1\nnodes = 9",
    "settings: unknown key server|[server]\nnodes = 1|server.nodes = 1",
    "settings: not toml\n  line 1, column 6|nodes",
    "settings: not toml\n  line 2, column 1|nodes = 1\nnodes = 1",
    "settings: not toml\n  line 1, column 9|nodes = 9223372036854775808",
    "settings: not toml\n  line 2, column 8|port = 1\nnodes =",
    "settings: not toml\n  line 3, column 8|nodes = 1\r\n\r\nlisten 1",
    "settings: not toml\n  line 1, column 14|listen = 'é' 1",
];

// Command lines, with the program's own name. Of `serve` the file is shown, and then what stands in the place of the address, of the nodes, of the
// workers and of the connections, and whether it lasts until its input ends.
static LINES: [&str; 8] = [
    "run|noderedis run",
    "script F|noderedis script F",
    "serve F - - - - UntilKilled|noderedis serve --config F|n serve --config=F",
    "serve F - - - - UntilInputEnds|n serve --config F --until-input-ends|n serve --until-input-ends --config F",
    "serve F A 1 - - UntilKilled|n serve --config F --listen A --nodes 1|n serve --nodes=1 --listen=A --config=F",
    "serve F - - many 0 UntilInputEnds|n serve --until-input-ends --workers many --config F --connections 0",
    "asked|n --help|n serve --help|n --version|n -V",
    "refused||n|n walk|n run a|n script|n script a b|n serve|n serve F|n serve --config|n serve --config a --config b|n serve --nodes 2|n serve --config a --nodes|n serve --config a --nodes 1 --nodes 1|n serve --config a --places 4|n run --nodes 2|n --nodes 2 serve --config a|n serve --until-input-ends|n serve --config a --until-input-ends=1|n serve --config a --until-input-ends b|n run --until-input-ends",
];

// Words in the place of settings, behind a file that has nodes, workers and an address.
static PLACED: [&str; 7] = [
    "a:1,c:3 3 1024 4 256 67108864 300 7 5 true|",
    "a:1,c:3 1 1024 4 256 67108864 300 7 5 true|--nodes 1|--nodes 01|--nodes +1",
    "b:2 8 1024 16 1024 67108864 300 7 5 true|--listen b:2 --nodes 8 --workers 16 --connections 1024",
    "settings: bad value nodes\n  from 1 to 8|--nodes 0|--nodes 9|--nodes two|--nodes 2.0|--nodes=-1|--nodes=|--nodes 18446744073709551617|--workers 17 --nodes 9",
    "settings: bad value workers\n  from 1 to 16|--workers 0|--nodes 2 --workers 17",
    "settings: bad value connections\n  from 1 to 1024|--connections 1025|--nodes 9 --workers 0 --connections 0",
    "no settings|--places 4",
];

// The addresses, with commas between them.
fn addresses(alloc: Global, listen: &[String]) -> Result<String, Fail> {
    let mut shown = String::new(alloc);
    for address in listen {
        if !shown.is_empty() {
            shown.push_str(",")?;
        }
        shown.push_str(address.as_str())?;
    }
    Ok(shown)
}

fn settings(alloc: Global, read: Result<Settings, ConfigError>) -> Result<String, Fail> {
    match read {
        Ok(s) => {
            let listen = addresses(alloc, &s.listen)?;
            let (keepalive, timeout) = (s.tcp_keepalive, s.timeout);
            let size = format!(in alloc;
                "{} {} {} {} {}",
                s.nodes, s.places, s.workers, s.connections, s.queue_limit
            )?;
            Ok(format!(in alloc;
                "{listen} {size} {keepalive} {timeout} {} {}",
                s.shutdown_seconds, s.revive
            )?)
        }
        Err(error) => Ok(format!(in alloc; "{error}")?),
    }
}

fn read(alloc: Global, line: &str) -> Result<Result<Task, WordsError>, Fail> {
    let mut given = Vec::new(alloc);
    for word in line.split_whitespace() {
        given.push(String::from_str(alloc, word)?)?;
    }
    Ok(words(alloc, given))
}

fn shown(word: &Option<String>) -> &str {
    match word {
        Some(word) => word.as_str(),
        None => "-",
    }
}

fn served(alloc: Global, file: &str, given: &Given, lasts: Lasts) -> Result<String, Fail> {
    let (listen, nodes) = (shown(&given.listen), shown(&given.nodes));
    let (workers, connections) = (shown(&given.workers), shown(&given.connections));
    let lasts = match lasts {
        Lasts::UntilKilled => "UntilKilled",
        Lasts::UntilInputEnds => "UntilInputEnds",
    };
    Ok(format!(in alloc; "serve {file} {listen} {nodes} {workers} {connections} {lasts}")?)
}

fn task(alloc: Global, line: &str) -> Result<String, Fail> {
    match read(alloc, line)? {
        Ok(Task::Run) => Ok(format!(in alloc; "run")?),
        Ok(Task::Script(file)) => Ok(format!(in alloc; "script {file}")?),
        Ok(Task::Serve(file, given, lasts)) => served(alloc, file.as_str(), &given, lasts),
        Err(WordsError::Asked(_text)) => Ok(format!(in alloc; "asked")?),
        Err(WordsError::Refused(_text)) => Ok(format!(in alloc; "refused")?),
        Err(WordsError::Memory) => Ok(format!(in alloc; "memory")?),
    }
}

#[test]
fn reads_files(rt: HostRuntime) -> Result<(), Fail> {
    for row in FILES {
        let mut texts = row.split('|');
        let wanted = texts.next().unwrap_or("");
        for text in texts {
            assert!(rt;
                settings(rt.alloc(), Settings::from_text(rt.alloc(), text))?.as_str() == wanted,
                "{text}"
            );
        }
    }
    Ok(())
}

#[test]
fn reads_words(rt: HostRuntime) -> Result<(), Fail> {
    for row in LINES {
        let mut lines = row.split('|');
        let wanted = lines.next().unwrap_or("");
        for line in lines {
            assert!(rt; task(rt.alloc(), line)?.as_str() == wanted, "{line}");
        }
    }
    Ok(())
}

// The settings of a file with these words in their place.
fn placed(alloc: Global, given: &str) -> Result<String, Fail> {
    let line = format!(in alloc; "n serve --config F {given}")?;
    match read(alloc, line.as_str())? {
        Ok(Task::Serve(_, given, _)) => {
            let text = "nodes = 3\nworkers = 4\nlisten = ['a:1', 'c:3']\ntimeout = 7";
            let file = Settings::from_text(alloc, text);
            settings(alloc, file.and_then(|file| file.replaced(alloc, given)))
        }
        _ => Ok(format!(in alloc; "no settings")?),
    }
}

#[test]
fn words_stand_in_place_of_settings(rt: HostRuntime) -> Result<(), Fail> {
    for row in PLACED {
        let mut lines = row.split('|');
        let wanted = lines.next().unwrap_or("");
        for line in lines {
            assert!(rt; placed(rt.alloc(), line)?.as_str() == wanted, "{line}");
        }
    }
    Ok(())
}

// What the program tells of the bytes of a settings file, with its status.
fn told(alloc: Global, bytes: &[u8]) -> Result<String, Fail> {
    match settings_on(alloc, bytes) {
        Ok(_) => Ok(format!(in alloc; "none")?),
        Err(fault) => Ok(format!(in alloc; "{fault}, {}", fault.status())?),
    }
}

#[test]
fn tells_faults_of_bytes(rt: HostRuntime) -> Result<(), Fail> {
    let alloc = rt.alloc();
    assert!(&rt; told(alloc, b"")?.as_str() == "none");
    assert!(&rt;
        told(alloc, b"nodes = 9")?.as_str()
            == "noderedis: settings: bad value nodes\n  from 1 to 8, 1"
    );
    assert!(&rt; told(alloc, b"port = 1")?.as_str() == "noderedis: settings: unknown key port, 1");
    assert!(&rt;
        told(alloc, b"port = 1\nnodes = 0")?.as_str()
            == "noderedis: settings: bad value nodes\n  from 1 to 8, 1"
    );
    // Bytes that are no text: the place is that of the first of them.
    assert!(&rt;
        told(alloc, b"nodes = 1\nlisten = '\xff'")?.as_str()
            == "noderedis: settings: not toml\n  line 2, column 11, 1"
    );
    Ok(())
}
