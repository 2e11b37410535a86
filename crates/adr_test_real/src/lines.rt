//! Connections over TCP on this machine.

use adr_io::Fault;
use adr_outside::{Net, TcpNet};
use std::net::{Ipv4Addr, SocketAddr, TcpListener};
use std::test::Fail;

/// A port where nobody listens.
fn free_port(rt: &HostRuntime) -> Result<u16, Fail> {
    let listener = TcpListener::bind(rt, SocketAddr::from((Ipv4Addr::LOCALHOST, 0)))?;
    Ok(listener.local_addr()?.port())
}

#[test]
fn bytes_come_over_and_so_does_the_end(rt: HostRuntime) -> Result<(), Fail> {
    let port = free_port(&rt)?;
    let mut server = TcpNet::new(&rt);
    let mut client = TcpNet::new(&rt);
    server.listen(port)?;
    client.connect(port)?;
    server.accept()?;
    client.send(b"ab")?;
    let mut into = [0; 4];
    assert_eq!(rt; (server.receive(&mut into), into), (Ok(2), *b"ab\0\0"));
    server.send(b"c")?;
    assert_eq!(rt; (client.receive(&mut into), into), (Ok(1), *b"cb\0\0"));
    client.hang_up();
    assert_eq!(rt; server.receive(&mut into), Ok(0));
    Ok(())
}

#[test]
fn where_nobody_listens_each_call_fails(rt: HostRuntime) -> Result<(), Fail> {
    let mut net = TcpNet::new(&rt);
    let told = [net.accept(), net.connect(free_port(&rt)?), net.send(b"a")];
    assert_eq!(rt; told, [Err(Fault::Failed); 3]);
    assert_eq!(rt; net.receive(&mut [0]), Err(Fault::Failed));
    Ok(())
}
